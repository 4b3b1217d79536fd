ghost use Rattle.std.specs.Prelude.{◌≡◌, ◌+◌, ◌%◌, ◌^◌, ◌<◌, ◌≤◌, ◌↔◌, length, true, IsSome, unwrap_or};
ghost use Rattle.protocol.specs.Claims.{on, nonce, oldest};
ghost use Rattle.protocol.specs.Lists.{leads, sum_of};
ghost use Rattle.protocol.specs.Segments.{begun_before, starts_at};
ghost use Rattle.claims.specs.Walks.{Found, Named};

use super::Table;
use crate::faults::EchoFault;
use crate::walks;
use protocol::segment::Segment;

impl<const ROOM: usize> Table<ROOM> {
    /// The nonces of the claims begun before an end, added to a sum modulo 2^64.
    #[tactic(auto, using(crate::proofs::Sums::sum_folds))]
    pub fn sum_before(&self, end: u64, settled: u64) -> u64
        ensures sum { result ≡ (settled + sum_of (on (begun_before end)) nonce self.now) % 2 ^ 64 }
        ensures fits { length self.now ≤ ROOM }
    {
        walks::add_begun(self.claims(), end, settled)
    }

    /// The place of the oldest claim that starts beyond the proved end, has the echo and is not spent.
    pub fn find_echo(&self, proved: u64, echo: u64) -> Result<usize, EchoFault>
        ensures found { Found proved echo self.now result }
        ensures fits { length self.now ≤ ROOM }
    {
        let claims = self.claims();
        let mut fault = EchoFault::Unknown;
        // The project asks for this loop over the claims with their index.
        for (i, claim) in claims.iter().enumerate() {
            if claim.segment.echoed_past(proved, echo) {
                if !claim.spent {
                    return Ok(i);
                }
                fault = EchoFault::Spent;
            }
        }
        Err(fault)
    }

    /// The claimed segment that begins at a start.
    #[tactic(auto, using(crate::proofs::Sums::first_named))]
    pub fn find_start(&self, start: u64) -> Option<Segment>
        ensures named { Named start self.now result }
        ensures fits { length self.now ≤ ROOM }
    {
        walks::first_at(self.claims(), start)
    }

    /// Where the oldest claim begins, if there is one.
    pub fn oldest_start(&self) -> Option<u64>
        ensures some { IsSome result ↔ (0 < length self.now) }
        ensures start { unwrap_or result 0 ≡ oldest (λ c. true) self.now }
        ensures fits { length self.now ≤ ROOM }
    {
        self.claims().first().map(|claim| claim.segment.start)
    }

    /// Whether there is an oldest claim, and it begins at a start.
    pub fn oldest_is_at(&self, start: u64) -> bool
        ensures value { result ≡ leads (on (starts_at start)) self.now }
        ensures fits { length self.now ≤ ROOM }
    {
        self.oldest_start().is_some_and(|oldest| oldest == start)
    }
}
