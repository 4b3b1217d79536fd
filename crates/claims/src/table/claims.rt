ghost use Rattle.std.specs.Borrow.{LendsIf, sem};
ghost use Rattle.std.specs.Prelude.{◌≡◌, ◌+◌, ◌%◌, ◌^◌, ◌<◌, ◌≤◌, ◌↔◌, [], ◌∷◌, ◌++◌, length, IsOk, OnOk, OnErr, IsSome, IfSome, slice_index_or, slice_set};
ghost use Rattle.protocol.specs.Claims.{on, nonce};
ghost use Rattle.protocol.specs.Lists.{kept_by, sum_of};
ghost use Rattle.protocol.specs.Segments.{ends_by, ends_past};
ghost use Rattle.protocol.specs.contracts.segment.Claim.{the_row as claim_row};
ghost use Rattle.claims.specs.Tables.{marked, no_claim};
ghost use Rattle.claims.specs.contracts.table.Table.{the_row};

use super::Table;
use crate::faults::TableFull;
use crate::walks;
use arrayvec::ArrayVec;
use protocol::segment::Claim;

impl<const ROOM: usize> Table<ROOM> {
    /// No place is taken.
    pub fn new() -> Table<ROOM>
        ensures value { result ≡ [] }
        ensures fits { length result ≤ ROOM }
    {
        Table {
            claims: ArrayVec::new(),
        }
    }

    /// The claims, the oldest first.
    pub fn claims(&self) -> &[Claim]
        ensures value { result.now ≡ self.now }
        ensures fits { length result.now ≤ ROOM }
    {
        self.claims.as_slice()
    }

    /// One claim more, the newest; where no place is free, nothing changes.
    pub fn push(&mut self, claim: Claim) -> Result<(), TableFull>
        ensures free { IsOk result ↔ (length self.old < ROOM) }
        ensures entered { OnOk result (self.new ≡ self.old ++ claim ∷ []) }
        ensures full { OnErr result (self.new ≡ self.old) }
        ensures before { length self.old ≤ ROOM }
        ensures fits { length self.new ≤ ROOM }
    {
        self.claims.try_push(claim).map_err(|_| TableFull)
    }

    /// Frees the places of the claims that end by an end, and adds their nonces to a sum modulo 2^64.
    #[tactic(auto, using(crate::proofs::Sums::sum_folds))]
    pub fn retire(&mut self, end: u64, settled: u64) -> u64
        ensures left { self.new ≡ kept_by (on (ends_past end)) self.old }
        ensures sum { result ≡ (settled + sum_of (on (ends_by end)) nonce self.old) % 2 ^ 64 }
        ensures before { length self.old ≤ ROOM }
        ensures fits { length self.new ≤ ROOM }
    {
        let sum = walks::add_ended(self.claims(), end, settled);
        self.claims.retain(|claim| !claim.segment.ends_by(end));
        sum
    }

    /// Marks the claim at a place as spent; the others stay, and past the claims there is nothing to mark.
    pub fn mark_spent(&mut self, place: usize)
        ensures marks { self.new ≡ slice_set self.old place (marked (slice_index_or self.old place no_claim)) }
        ensures before { length self.old ≤ ROOM }
        ensures fits { length self.new ≤ ROOM }
    {
        if let Some(claim) = self.claim_mut(place) {
            claim.spent = true;
        }
    }

    /// Lends the claim at a place: the table ends with what the claim ends as, and is else as it was.
    fn claim_mut(&mut self, place: usize) -> Option<&mut Claim>
        ensures* lends { sem 𝓛 (LendsIf (the_row ROOM.row) claim_row self.entry result (slice_set self.old place) self.old) }
        ensures variant { IsSome result ↔ (place < length self.old) }
        ensures value { IfSome result (λ claim. claim.now ≡ slice_index_or self.old place no_claim) }
        ensures fits { length self.old ≤ ROOM }
    {
        self.claims.get_mut(place)
    }
}
