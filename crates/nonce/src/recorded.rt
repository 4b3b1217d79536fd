ghost use Rattle.std.specs.Prelude.{◌≡◌};

use crate::source::{NonceFault, NonceSource};
use std::marker::Model;

/// A source that gives the words of a list, in order.
#[derive(Drop)]
pub struct Recorded<'a> {
    // the list from the place of the next word on
    rest: &'a [u64],
}

/// Contracts see the words still to come.
impl<'a> Model for Recorded<'a> {
    ghost use Rattle.std.specs.Prelude.{ℕ, List};

    ghost Value = { List ℕ };

    ghost view = { λ s. s.rest.now };
}

impl<'a> Recorded<'a> {
    /// All the words of the list.
    pub fn new(words: &'a [u64]) -> Recorded<'a>
        ensures { result ≡ words.now }
    {
        Recorded { rest: words }
    }
}

impl<'a> NonceSource for Recorded<'a> {
    ghost words = { λ s. s };

    fn draw(&mut self) -> Result<u64, NonceFault> {
        let (word, rest) = self.rest.split_first().ok_or(NonceFault::NoWord)?;
        self.rest = rest;
        Ok(*word)
    }

    fn left(&self) -> u64 {
        // A `usize` has no `From` to `u64`.
        self.rest.len() as u64
    }
}
