ghost use Rattle.std.specs.Prelude.{◌≡◌, ◌<◌, ◌≤◌, false, length, slice_index_or};
ghost use Rattle.protocol.specs.Calls.{Call};
ghost use Rattle.protocol.specs.SenderRules.{reply, after_advance, after_duplicate, duplicate_counted};
ghost use Rattle.protocol.specs.Answers.{told, to_acknowledge, progress};
ghost use Rattle.claims.specs.Tables.{no_claim};
ghost use Rattle.sender.specs.Parts.{freed};
ghost use Rattle.sender.specs.Views.{Sound};

use super::Sender;
use claims::faults::EchoFault;
use congestion::controller::Controller;
use nonce::source::NonceSource;
use protocol::answer::Acknowledged;
use protocol::faults::SenderFault;

/// The duplicate that tells of a loss.
const LOSS_AT: u32 = 3;

impl<C: Controller, N: NonceSource, S> Sender<C, N, S> {
    /// The station tells that all bytes before `end` have come, with the sum of the segments begun before it and the single nonce that came last.
    pub fn acknowledge(
        &mut self,
        end: u64,
        sum: u64,
        echo: u64,
    ) -> Result<Acknowledged, SenderFault>
        ensures answer { reply C.control self.old (Call.acknowledge end sum echo) ≡ told (to_acknowledge result) self.new }
        ensures before { Sound self.old }
        ensures sound { Sound self.new }
    {
        if end > self.sent {
            return Err(SenderFault::BeyondSent { end });
        }
        if end < self.proved {
            return Err(SenderFault::BelowProved { end });
        }
        if sum != self.table.sum_before(end, self.settled) {
            let proved = self.proved;
            return Err(SenderFault::WrongSum { proved, end });
        }
        if end > self.proved {
            self.advance(end);
            return Ok(Acknowledged::Advanced);
        }
        match self.table.find_echo(self.proved, echo) {
            Ok(place) => Ok(self.count_duplicate(place)),
            Err(EchoFault::Unknown) => Err(SenderFault::UnknownEcho { end }),
            Err(EchoFault::Spent) => Err(SenderFault::SpentEcho { end }),
        }
    }

    // An acknowledgement beyond the proved end: the rise is credited, and the claims that it covers go.
    fn advance(&mut self, end: u64)
        requires beyond { self.old.proved ≤ end }
        requires within { end ≤ self.old.sent }
        ensures state { self.new ≡ after_advance C.control self.old end }
        ensures sound { Sound self.new }
    {
        self.controller.credit(end - self.proved);
        self.duplicates = 0;
        self.repeat_due = false;
        self.free_claims(end);
    }

    // The proved end moves on, the claims that it covers go, and their nonces are kept. Duplicates that were counted for them must be forgotten.
    fn free_claims(&mut self, end: u64)
        requires within { end ≤ self.old.sent }
        requires none { self.old.duplicates ≡ 0 }
        ensures state { self.new ≡ freed self.old end }
        ensures sound { Sound self.new }
    {
        self.settled = self.table.retire(end, self.settled);
        self.proved = end;
    }

    // A duplicate is counted for the claim at a place; the third tells a loss.
    fn count_duplicate(&mut self, place: usize) -> Acknowledged
        requires there { place < length self.old.claims }
        requires unspent { (slice_index_or self.old.claims place no_claim).spent ≡ false }
        ensures answer { duplicate_counted C.control self.old (slice_index_or self.old.claims place no_claim).segment.start ≡ told (progress result) self.new }
        ensures sound { Sound self.new }
    {
        let start = self.spend(place);
        if self.duplicates == LOSS_AT {
            let in_flight = self.in_flight();
            self.controller.loss(in_flight);
            self.repeat_due = true;
            return Acknowledged::Lost { start };
        }
        Acknowledged::Counted { start }
    }

    // Marks the claim at a place, counts one duplicate more, and tells where the claim's segment begins.
    #[tactic(auto, using(crate::proofs::Sound::duplicates_few, crate::proofs::Sound::marked_is_spent))]
    fn spend(&mut self, place: usize) -> u64
        requires there { place < length self.old.claims }
        requires unspent { (slice_index_or self.old.claims place no_claim).spent ≡ false }
        ensures start { result ≡ (slice_index_or self.old.claims place no_claim).segment.start }
        ensures state { self.new ≡ after_duplicate C.control self.old result false }
        ensures sound { Sound self.new }
    {
        let start = self.table.claims()[place].segment.start;
        self.table.mark_spent(place);
        self.duplicates += 1;
        start
    }
}
