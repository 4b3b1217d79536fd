ghost use Rattle.std.specs.Prelude.{ℕ, ◌≤◌};
ghost use Rattle.congestion.specs.Growths.{additive_limit, additive_never_zero, inverse_limit, inverse_never_zero};
ghost use Rattle.std.proofs.Common.{rules};
ghost use Rattle.std.proofs.lemmas.Grind.{common_steps};

use crate::growth::Increase;

/// A window of credited bytes widens it by a segment.
#[derive(Drop)]
pub(crate) struct Additive;

impl Increase for Additive {
    ghost limit = { additive_limit };

    fn limit(_segment: u32, window: u32) -> u64 {
        u64::from(window)
    }

    ghost never_zero = { additive_never_zero };

    ghost has_room = { Prim.search rules };
}

/// As many windows of credited bytes as the window has segments, a part of one counted whole, widen it by a segment.
#[derive(Drop)]
pub(crate) struct Inverse;

impl Increase for Inverse {
    ghost limit = { inverse_limit };

    fn limit(segment: u32, window: u32) -> u64 {
        u64::from(window) * u64::from(window.div_ceil(segment))
    }

    ghost never_zero = { inverse_never_zero };

    ghost has_room = { Prim.search (rules, common_steps) };
}
