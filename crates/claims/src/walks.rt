ghost use Rattle.std.specs.Prelude.{◌≡◌, find, fold, map, option_map};
ghost use Rattle.protocol.specs.Claims.{on};
ghost use Rattle.protocol.specs.Segments.{begun_before, ends_by, starts_at};
ghost use Rattle.claims.specs.Walks.{add_nonce, nonce_if};

use protocol::segment::{Claim, Segment};

// Each contract repeats its chain in the words of lists, so that the search finds it; what a chain comes to is said by the method that uses it.
// The two sums are apart, since the clause of one function that takes the test as a closure is longer than both chains.
// A claim that fails the test adds 0, and a segment is copied only once its claim is found: a filter before the fold, or a copy of each segment, takes up to twice as long.

/// Adds the nonces of the claims begun before an end to a sum modulo 2^64.
pub(crate) fn add_begun(claims: &[Claim], end: u64, sum: u64) -> u64
    ensures { result ≡ fold add_nonce sum (map (nonce_if (on (begun_before end))) claims.now) }
{
    claims
        .iter()
        .map(|claim| {
            if claim.segment.begun_before(end) {
                claim.segment.summed
            } else {
                0
            }
        })
        .fold(sum, |sum, nonce| sum.wrapping_add(nonce))
}

/// Adds the nonces of the claims that end by an end to a sum modulo 2^64.
pub(crate) fn add_ended(claims: &[Claim], end: u64, sum: u64) -> u64
    ensures { result ≡ fold add_nonce sum (map (nonce_if (on (ends_by end))) claims.now) }
{
    claims
        .iter()
        .map(|claim| {
            if claim.segment.ends_by(end) {
                claim.segment.summed
            } else {
                0
            }
        })
        .fold(sum, |sum, nonce| sum.wrapping_add(nonce))
}

/// The oldest claimed segment that begins at a start.
pub(crate) fn first_at(claims: &[Claim], start: u64) -> Option<Segment>
    ensures { result ≡ option_map (λ c. c.segment) (find (on (starts_at start)) claims.now) }
{
    claims
        .iter()
        .find(|claim| claim.segment.start == start)
        .map(|claim| claim.segment)
}
