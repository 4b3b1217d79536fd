ghost use Rattle.std.specs.Prelude.{◌≡◌, Some};
ghost use Rattle.protocol.specs.Answers.{refusal_in};
ghost use Rattle.sender.specs.Views.{Sound};
ghost use Rattle.session.specs.Events.{outcome};
ghost use Rattle.session.specs.Listing.{listing_word};

use congestion::controller::Controller;
use nonce::source::NonceSource;
use protocol::faults::SenderFault;
use sender::sender::Sender;
use std::fmt;

/// What happens to a panel.
#[derive(Clone, Copy)]
pub enum Event {
    Send { length: u16 },
    Acknowledge { end: u64, sum: u64, echo: u64 },
    Timeout,
    /// A due repeat is taken and repeated.
    Again,
}

/// Its word in the listing.
impl fmt::Display for Event {
    ghost output = { λ event. Some (listing_word event) };

    fn fmt<W: fmt::Write>(&self, f: &mut fmt::Formatter<W>) -> fmt::Result {
        f.write_str(match self {
            Event::Send { .. } => "send",
            Event::Acknowledge { .. } => "ack",
            Event::Timeout => "time",
            Event::Again => "again",
        })
    }
}

impl Event {
    /// Plays the event on a sender, and tells whether it was refused.
    pub fn play<C: Controller, N: NonceSource>(
        &self,
        panel: &mut Sender<C, N>,
    ) -> Result<(), SenderFault>
        ensures played { outcome C.control panel.old self.now ≡ record { refusal = refusal_in result; state = panel.new } }
        ensures before { Sound panel.old }
        ensures sound { Sound panel.new }
    {
        match *self {
            Event::Send { length } => {
                panel.send(length)?;
            }
            Event::Acknowledge { end, sum, echo } => {
                panel.acknowledge(end, sum, echo)?;
            }
            Event::Timeout => panel.timeout()?,
            Event::Again => {
                panel.take_and_repeat()?;
            }
        }
        Ok(())
    }
}
