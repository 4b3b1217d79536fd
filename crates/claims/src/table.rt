use arrayvec::ArrayVec;
use protocol::segment::Claim;
use std::marker::Model;

mod claims;
mod questions;

/// Room for so many claims, the oldest first.
#[derive(Drop)]
pub struct Table<const ROOM: usize> {
    claims: ArrayVec<Claim, ROOM>,
}

/// Contracts see the claims, the oldest first; there are never more than there is room for.
impl<const ROOM: usize> Model for Table<ROOM> {
    ghost use Rattle.std.specs.Prelude.{◌≤◌, List, length};
    ghost use Rattle.protocol.specs.declared.segment.Claim.{Claim};

    ghost Value = { List Claim };

    ghost view = { λ t. t.claims.items };

    ghost invariant = { λ t. length t.claims.items ≤ ROOM };
}
