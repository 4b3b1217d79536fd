ghost use Rattle.std.specs.Prelude.{◌≡◌};
ghost use Rattle.protocol.specs.Promises.{Promises};
ghost use Rattle.protocol.specs.SenderRules.{opened};
ghost use Rattle.sender.specs.Views.{Sound};

use super::{Finished, FinishedSender, Sender, Sending};
use claims::table::Table;
use congestion::controller::Controller;
use nonce::source::NonceSource;

impl<C: Controller, N: NonceSource> Sender<C, N> {
    /// Nothing is sent, and nothing is acknowledged. What every list of calls on the new sender then adds up to is `promises`.
    pub fn new(controller: C, nonces: N) -> Sender<C, N>
        ensures fresh { result ≡ opened controller (N.words nonces) }
        ensures promises { Promises C.control result }
        ensures sound { Sound result }
    {
        Sender::empty(controller, nonces)
    }

    // No claim, and every number at 0. Apart from `new`, so that what `new` promises is proved from this clause alone.
    fn empty(controller: C, nonces: N) -> Sender<C, N>
        ensures state { result ≡ opened controller (N.words nonces) }
        ensures sound { Sound result }
    {
        Sender {
            controller,
            nonces,
            table: Table::new(),
            settled: 0,
            sent: 0,
            proved: 0,
            duplicates: 0,
            repeat_due: false,
            stage: Sending,
        }
    }

    /// No more is sent; all other calls go on as before.
    // A struct is not updated into another type, so each field is named.
    pub fn finish(self) -> FinishedSender<C, N>
        ensures state { result ≡ self }
        ensures sound { Sound result }
    {
        let Sender {
            controller,
            nonces,
            table,
            settled,
            sent,
            proved,
            duplicates,
            repeat_due,
            stage: _,
        } = self;
        Sender {
            controller,
            nonces,
            table,
            settled,
            sent,
            proved,
            duplicates,
            repeat_due,
            stage: Finished,
        }
    }
}
