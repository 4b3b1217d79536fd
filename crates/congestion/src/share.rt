ghost use Rattle.std.specs.Prelude.{◌≡◌, ◌≤◌, min, max};
ghost use Rattle.congestion.specs.Layers.{some_eighths, shared, with_eighths};
ghost use Rattle.std.proofs.Common.{rules, arith, mul-le-mul_left};
ghost use Rattle.std.proofs.lemmas.Grind.{common_steps};

use crate::controller::Controller;
use crate::narrowed::{Narrowed, Narrowing};

/// Some eighths, rounded down.
#[derive(Drop)]
pub struct Eighths {
    /// 1 to 8, and any other is taken as the nearer end.
    eighths: u32,
}

impl Narrowing for Eighths {
    ghost bound = { some_eighths };

    fn bound(&self, window: u32) -> u32 {
        let eighths = u64::from(self.eighths.clamp(1, 8));
        // The proof shows that the cast loses nothing, and `try_from` would want an unwrap.
        (u64::from(window) * eighths / 8) as u32
    }

    ghost no_wider = { λ r w.
        let few : max 1 (min r.eighths 8) ≤ 8 = omega arith in
        omega (arith, mul-le-mul_left w few) };

    ghost monotone = { Prim.search (rules, common_steps) };
}

/// Some eighths of the window below, rounded down, but at least one segment.
pub type Share<C> = Narrowed<C, Eighths>;

impl<C: Controller> Share<C> {
    /// Over the controller `below`, which may be in any condition.
    pub fn new(below: C, eighths: u32) -> Share<C>
        ensures made { result ≡ with_eighths below eighths }
        ensures control { ⟦<Share<C> as Controller>⟧.control ≡ shared C.control }
    {
        let rule = Eighths { eighths };
        Narrowed { below, rule }
    }
}
