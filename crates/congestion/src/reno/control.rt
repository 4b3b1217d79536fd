ghost use Rattle.std.specs.Prelude.{◌≡◌, ◌≤◌};
ghost use Rattle.std.proofs.Math.Path.{refl};
ghost use Rattle.congestion.specs.AtOnce.{climbing};
ghost use Rattle.congestion.specs.RenoRules.{reno, halved, RenoStarts, byte};
ghost use Rattle.congestion.specs.Iterates.{iterate_sum};
ghost use Rattle.congestion.specs.Fillings.{never_narrows, same_segment};
ghost use Rattle.congestion.specs.Climbs.{byte_widens, byte_segment};
ghost use Rattle.congestion.specs.Views.{sizes};
ghost use Rattle.congestion.specs.Same.{reno_same};

use super::Reno;
use crate::controller::{Controller, WIDEST};
use crate::faults::ControllerFault;
use crate::growth::Growth;

impl Reno {
    /// The first window, and no threshold below the widest one.
    pub fn new(segment: u32) -> Result<Reno, ControllerFault>
        ensures { RenoStarts segment result }
    {
        let growth = Growth::first(segment)?;
        Ok(Reno {
            growth,
            threshold: WIDEST,
        })
    }

    /// How many of so many credited bytes widen the window one by one, up to the threshold.
    fn climbing(&self, bytes: u64) -> u32
        ensures { result ≡ climbing self.now bytes }
    {
        let below = self.threshold.saturating_sub(self.window());
        // The proof shows that the cast loses nothing, and `try_from` would want an unwrap.
        bytes.min(u64::from(below)) as u32
    }
}

/// The threshold after a loss or a timeout: half of what was in flight, but at least two segments.
fn halved(segment: u32, flight: u64) -> u32
    requires { segment ≤ 9000 }
    ensures { result ≡ halved segment flight }
{
    // The proof shows that the cast loses nothing, and `try_from` would want an unwrap.
    (flight / 2)
        .max(2 * u64::from(segment))
        .min(u64::from(WIDEST)) as u32
}

impl Controller for Reno {
    ghost control = { reno };

    ghost lawful = { record {
      nothing = λ s. reno_same _ _ refl refl;
      together = λ s a b. reno_same _ _ refl (iterate_sum (byte s.threshold) a b (sizes s.growth));
      widens = λ s n. never_narrows (byte s.threshold) (byte_widens s.threshold s.limited) n (sizes s.growth) s.growth.bounded.3;
      small = λ s. s.growth.bounded.0;
      large = λ s. s.growth.bounded.1;
      credit_keeps = λ s n. same_segment (byte s.threshold) (byte_segment s.threshold) n (sizes s.growth);
      loss_keeps = λ s f. refl;
      timeout_keeps = λ s f. refl;
      least = λ s. s.growth.bounded.2;
      most = λ s. s.growth.bounded.3;
    } };

    // IIAD has these two as well: a trait to say that both have a growth would be longer than they are.
    fn window(&self) -> u32 {
        self.growth.window
    }

    fn segment(&self) -> u32 {
        self.growth.segment
    }

    #[tactic(auto, using(crate::specs::Same::reno_same, crate::specs::Climbs::climbs))]
    fn credit(&mut self, bytes: u64) {
        let climbed = self.climbing(bytes);
        let growth = &mut self.growth;
        growth.window += climbed;
        growth.credit(bytes - u64::from(climbed));
    }

    fn loss(&mut self, flight: u64) {
        let segment = self.segment();
        let threshold = halved(segment, flight);
        let window = self.window().min(threshold);
        self.growth = Growth::new(segment, window);
        self.threshold = threshold;
    }

    fn timeout(&mut self, flight: u64) {
        self.growth.restart();
        self.threshold = halved(self.segment(), flight);
    }
}
