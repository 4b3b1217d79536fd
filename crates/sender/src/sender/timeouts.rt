ghost use Rattle.std.specs.Prelude.{◌≡◌};
ghost use Rattle.protocol.specs.Calls.{Call};
ghost use Rattle.protocol.specs.SenderRules.{reply};
ghost use Rattle.protocol.specs.Answers.{told, to_timeout};
ghost use Rattle.sender.specs.Views.{Sound};

use super::Sender;
use congestion::controller::Controller;
use nonce::source::NonceSource;
use protocol::faults::SenderFault;

impl<C: Controller, N: NonceSource, S> Sender<C, N, S> {
    /// Nothing came back in time: the controller is told, and a repeat is due.
    pub fn timeout(&mut self) -> Result<(), SenderFault>
        ensures answer { reply C.control self.old Call.timeout ≡ told (to_timeout result) self.new }
        ensures before { Sound self.old }
        ensures sound { Sound self.new }
    {
        let in_flight = self.in_flight();
        if in_flight == 0 {
            let sent = self.sent;
            return Err(SenderFault::NothingInFlight { sent });
        }
        self.controller.timeout(in_flight);
        self.duplicates = 0;
        self.repeat_due = true;
        Ok(())
    }
}
