ghost use Rattle.std.specs.Prelude.{◌≡◌};
ghost use Rattle.protocol.specs.SenderRules.{allowance as allowance_by_rule};
ghost use Rattle.protocol.specs.SenderRules.{in_flight};
ghost use Rattle.sender.specs.Views.{Sound};

use super::Sender;
use congestion::controller::Controller;
use nonce::source::NonceSource;

impl<C: Controller, N: NonceSource, S> Sender<C, N, S> {
    /// The controller's window.
    pub fn window(&self) -> u32
        ensures value { result ≡ C.control.window self.now.control }
        ensures sound { Sound self.now }
    {
        self.controller.window()
    }

    /// How many bytes may be in flight: the window, and a segment more for each duplicate.
    pub fn allowance(&self) -> u64
        ensures value { result ≡ allowance_by_rule C.control self.now }
        ensures sound { Sound self.now }
    {
        u64::from(self.window()) + u64::from(self.controller.segment()) * u64::from(self.duplicates)
    }

    // The bytes sent and not yet acknowledged.
    pub(super) fn in_flight(&self) -> u64
        ensures { result ≡ in_flight self.now }
    {
        self.sent - self.proved
    }
}
