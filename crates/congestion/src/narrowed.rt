ghost use Rattle.std.specs.Prelude.{◌≡◌, ℕ, ◌≤◌};
ghost use Rattle.congestion.specs.Layers.{narrowed};
ghost use Rattle.std.proofs.Common.{rules};

use crate::controller::Controller;

/// A rule that narrows a window.
pub trait Narrowing {
    ghost bound: { Self → ℕ → ℕ };

    /// The window that is left of `window`.
    fn bound(&self, window: u32) -> u32
        ensures { result ≡ bound self.now window };

    ghost no_wider: { (r : Self) (w : ℕ) → bound r w ≤ w };

    ghost monotone: { (r : Self) (v w : ℕ) → v ≤ w → bound r v ≤ bound r w };
}

/// The window below as `rule` narrows it, but of at least one segment.
#[derive(Drop)]
pub struct Narrowed<C, R> {
    pub(crate) below: C,
    pub(crate) rule: R,
}

impl<C: Controller, R: Narrowing> Controller for Narrowed<C, R> {
    ghost control = { narrowed C.control R.bound };

    ghost lawful = { Prim.search rules };

    fn window(&self) -> u32 {
        let segment = self.segment();
        self.rule.bound(self.below.window()).max(segment)
    }

    fn segment(&self) -> u32 {
        self.below.segment()
    }

    fn credit(&mut self, bytes: u64) {
        self.below.credit(bytes);
    }

    fn loss(&mut self, flight: u64) {
        self.below.loss(flight);
    }

    fn timeout(&mut self, flight: u64) {
        self.below.timeout(flight);
    }
}
