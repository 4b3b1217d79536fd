ghost use Rattle.std.specs.Prelude.{◌≡◌, ◌^◌, ◌<◌, min};
ghost use Rattle.nonce.specs.SplitMix.{stepped, xor_shifted, multiplied, mixed, generated, to_come};

use crate::source::{NonceFault, NonceSource};

// the most words that one source generates
const MOST_WORDS: u64 = 0x1_0000_0000;

// what a step adds to the state
const STEP: u64 = 0x9E37_79B9_7F4A_7C15;

// the factors of the two rounds of mixing
const FIRST_FACTOR: u64 = 0xBF58_476D_1CE4_E5B9;

const SECOND_FACTOR: u64 = 0x94D0_49BB_1331_11EB;

/// A source of words that the generator SplitMix64 makes from a seed, as many as are asked for.
#[derive(Drop)]
pub struct SplitMix64 {
    state: u64,
    // how many words are still to come
    count: u64,
}

impl SplitMix64 {
    /// `count` words from this seed, but no more than 2^32.
    pub fn new(seed: u64, count: u64) -> SplitMix64
        ensures { to_come result ≡ generated (min count (2 ^ 32)) seed }
    {
        SplitMix64 {
            state: seed,
            count: count.min(MOST_WORDS),
        }
    }
}

impl NonceSource for SplitMix64 {
    ghost words = { to_come };

    fn draw(&mut self) -> Result<u64, NonceFault> {
        self.count = self.count.checked_sub(1).ok_or(NonceFault::NoWord)?;
        Ok(next_word(&mut self.state))
    }

    #[tactic(auto, using(crate::proofs::Generated::words_counted))]
    fn left(&self) -> u64 {
        self.count
    }
}

// One step of the generator: the state moves on, and the word is the new state mixed.
fn next_word(state: &mut u64) -> u64
    ensures state { state.new ≡ stepped state.old }
    ensures word { result ≡ mixed (stepped state.old) }
{
    *state = state.wrapping_add(STEP);
    mix(*state)
}

fn mix(state: u64) -> u64
    ensures { result ≡ mixed state }
{
    let z = xor_shift_multiply(state, 30, FIRST_FACTOR);
    let z = xor_shift_multiply(z, 27, SECOND_FACTOR);
    xor_shift(z, 31)
}

fn xor_shift_multiply(z: u64, shift: u32, factor: u64) -> u64
    requires { shift < 64 }
    ensures { result ≡ multiplied factor (xor_shifted shift z) }
{
    xor_shift(z, shift).wrapping_mul(factor)
}

fn xor_shift(z: u64, shift: u32) -> u64
    requires { shift < 64 }
    ensures { result ≡ xor_shifted shift z }
{
    z ^ (z >> shift)
}
