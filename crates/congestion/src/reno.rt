ghost use Rattle.std.specs.Prelude.{◌^◌, ◌≤◌};

use crate::growth::Growth;
use crate::increases::Additive;

mod control;

/// Reno, counted in bytes: up to the threshold each credited byte widens the window by one, and from there on a window of them widens it by a segment.
#[derive(Drop)]
pub struct Reno {
    growth: Growth<Additive>,
    threshold: u32,
    ghost limited: { threshold ≤ 2 ^ 24 },
}
