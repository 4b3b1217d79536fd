ghost use Rattle.std.specs.Prelude.{◌≡◌};
ghost use Rattle.sender.specs.Views.{Sound};

use super::Sender;
use congestion::controller::Controller;
use nonce::source::NonceSource;

impl<C: Controller, N: NonceSource, S> Sender<C, N, S> {
    /// The bytes sent.
    pub fn sent(&self) -> u64
        ensures value { result ≡ self.now.sent }
        ensures sound { Sound self.now }
    {
        self.sent
    }

    /// The proved end: all bytes before it are acknowledged.
    pub fn proved(&self) -> u64
        ensures value { result ≡ self.now.proved }
        ensures sound { Sound self.now }
    {
        self.proved
    }

    /// Whether a repeat of the oldest outstanding segment is due.
    pub fn repeat_due(&self) -> bool
        ensures value { result ≡ self.now.due }
        ensures sound { Sound self.now }
    {
        self.repeat_due
    }
}
