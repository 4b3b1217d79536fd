ghost use Rattle.std.specs.Prelude.{◌≡◌, ◌+◌, ◌^◌, ◌<◌, ◌≤◌, length as count, drop};
ghost use Rattle.protocol.specs.Calls.{Call};
ghost use Rattle.protocol.specs.Checks.{first_refusal};
ghost use Rattle.protocol.specs.SenderRules.{reply, checks};
ghost use Rattle.protocol.specs.Answers.{told, refusal_in, to_send};
ghost use Rattle.sender.specs.Parts.{drawn_from, entered};
ghost use Rattle.sender.specs.Views.{Sound};

use super::{MOST_CLAIMS, Sender};
use congestion::controller::Controller;
use nonce::source::NonceSource;
use protocol::faults::SenderFault;
use protocol::segment::{Claim, Segment};

/// The most bytes that a stream may have.
const MOST_BYTES: u64 = 1 << 40;

impl<C: Controller, N: NonceSource> Sender<C, N> {
    // The checks of a send, in their order.
    fn check_send(&self, length: u16) -> Result<(), SenderFault>
        ensures answer { first_refusal (checks C.control self.now (Call.send length)) ≡ refusal_in result }
        ensures sound { Sound self.now }
    {
        let sent = self.sent;
        if length == 0 || u32::from(length) > self.controller.segment() {
            return Err(SenderFault::Length { sent });
        }
        if sent + u64::from(length) > MOST_BYTES {
            return Err(SenderFault::StreamFull { sent });
        }
        if self.table.claims().len() >= MOST_CLAIMS {
            return Err(SenderFault::TableFull { sent });
        }
        if self.in_flight() + u64::from(length) > self.allowance() {
            return Err(SenderFault::Allowance { sent });
        }
        if self.nonces.left() < 2 {
            return Err(SenderFault::NonceShortage { sent });
        }
        Ok(())
    }

    /// Sends the next `length` bytes: draws two words, the summed nonce and then the single nonce, and enters the claim.
    pub fn send(&mut self, length: u16) -> Result<Segment, SenderFault>
        ensures answer { reply C.control self.old (Call.send length) ≡ told (to_send result) self.new }
        ensures before { Sound self.old }
        ensures sound { Sound self.new }
    {
        self.check_send(length)?;
        let segment = draw_segment(&mut self.nonces, self.sent, length);
        self.enter(segment);
        Ok(segment)
    }

    // Its claim is the newest, and its bytes are sent.
    fn enter(&mut self, segment: Segment)
        requires next { segment.start ≡ self.old.sent }
        requires some { 0 < segment.length }
        requires holds { self.old.sent + segment.length ≤ 2 ^ 40 }
        requires room { count self.old.claims < 64 }
        ensures state { self.new ≡ entered self.old segment }
        ensures sound { Sound self.new }
    {
        let claim = Claim {
            segment,
            spent: false,
        };
        self.table.push(claim).unwrap();
        self.sent += u64::from(segment.length);
    }
}

// The segment that a source's next two words make of the bytes from a start on.
fn draw_segment<N: NonceSource>(nonces: &mut N, start: u64, length: u16) -> Segment
    requires { 2 ≤ count (N.words nonces.old) }
    ensures segment { result ≡ drawn_from (N.words nonces.old) start length }
    ensures left { N.words nonces.new ≡ drop 2 (N.words nonces.old) }
{
    let summed = nonces.draw().unwrap();
    let single = nonces.draw().unwrap();
    Segment {
        start,
        length,
        summed,
        single,
    }
}
