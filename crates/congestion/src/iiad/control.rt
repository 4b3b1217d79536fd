ghost use Rattle.std.specs.Prelude.{◌≡◌, refl};
ghost use Rattle.congestion.specs.IiadRules.{iiad, IiadStarts};
ghost use Rattle.congestion.specs.Growths.{inverse_limit, fill};
ghost use Rattle.congestion.specs.Iterates.{iterate_sum};
ghost use Rattle.congestion.specs.Fillings.{fill_widens, fill_segment, never_narrows, same_segment};
ghost use Rattle.congestion.specs.Views.{sizes};
ghost use Rattle.congestion.specs.Same.{iiad_same};

use super::Iiad;
use crate::controller::Controller;
use crate::faults::ControllerFault;
use crate::growth::Growth;

impl Iiad {
    /// The first window.
    pub fn new(segment: u32) -> Result<Iiad, ControllerFault>
        ensures { IiadStarts segment result }
    {
        let growth = Growth::first(segment)?;
        Ok(Iiad { growth })
    }
}

#[tactic(auto, using(crate::specs::Same::iiad_same))]
impl Controller for Iiad {
    ghost control = { iiad };

    ghost lawful = { record {
      nothing = λ s. iiad_same _ _ refl;
      together = λ s a b. iiad_same _ _ (iterate_sum (fill inverse_limit) a b (sizes s.growth));
      widens = λ s n. never_narrows (fill inverse_limit) (fill_widens inverse_limit) n (sizes s.growth) s.growth.bounded.3;
      small = λ s. s.growth.bounded.0;
      large = λ s. s.growth.bounded.1;
      credit_keeps = λ s n. same_segment (fill inverse_limit) (fill_segment inverse_limit) n (sizes s.growth);
      loss_keeps = λ s f. refl;
      timeout_keeps = λ s f. refl;
      least = λ s. s.growth.bounded.2;
      most = λ s. s.growth.bounded.3;
    } };

    // Reno has these two as well: a trait to say that both have a growth would be longer than they are.
    fn window(&self) -> u32 {
        self.growth.window
    }

    fn segment(&self) -> u32 {
        self.growth.segment
    }

    fn credit(&mut self, bytes: u64) {
        self.growth.credit(bytes);
    }

    fn loss(&mut self, _flight: u64) {
        let segment = self.segment();
        let window = (self.window() - segment).max(segment);
        self.growth = Growth::new(segment, window);
    }

    fn timeout(&mut self, _flight: u64) {
        self.growth.restart();
    }
}
