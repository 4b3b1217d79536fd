ghost use Rattle.std.specs.Prelude.{◌≡◌};
ghost use Rattle.congestion.specs.Layers.{at_most, capped, with_cap};
ghost use Rattle.std.proofs.Common.{rules};

use crate::controller::Controller;
use crate::narrowed::{Narrowed, Narrowing};

/// No wider than `cap`.
#[derive(Drop)]
pub struct AtMost {
    cap: u32,
}

impl Narrowing for AtMost {
    ghost bound = { at_most };

    fn bound(&self, window: u32) -> u32 {
        window.min(self.cap)
    }

    ghost no_wider = { Prim.search rules };

    ghost monotone = { Prim.search rules };
}

/// The window below, but no wider than `cap`, and of at least one segment.
pub type Cap<C> = Narrowed<C, AtMost>;

impl<C: Controller> Cap<C> {
    /// Over the controller `below`, which may be in any condition.
    pub fn new(below: C, cap: u32) -> Cap<C>
        ensures made { result ≡ with_cap below cap }
        ensures control { ⟦<Cap<C> as Controller>⟧.control ≡ capped C.control }
    {
        let rule = AtMost { cap };
        Narrowed { below, rule }
    }
}
