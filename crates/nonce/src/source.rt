ghost use Rattle.std.specs.Prelude.{◌≡◌, ℕ, List, length};
ghost use Rattle.fault.specs.declared.Layer.{Layer};
ghost use Rattle.nonce.specs.Draws.{Drawn};
ghost use Rattle.nonce.specs.Faults.{refusal};

use fault::{Fault, Label, Layer};

/// A source of nonces, words of 64 bits. Its meaning is the list of the words still to come.
pub trait NonceSource {
    ghost words: { Self → List ℕ };

    /// The next word, refused where none is left.
    fn draw(&mut self) -> Result<u64, NonceFault>
        ensures { Drawn words self.old result self.new };

    /// How many words are still to come.
    fn left(&self) -> u64
        ensures { result ≡ length (words self.now) };
}

/// Why no word is drawn.
#[derive(Clone, Copy, PartialEq, Eq, Debug)]
pub enum NonceFault {
    /// No word is left.
    NoWord,
}

impl Fault for NonceFault {
    ghost origin = { Layer.NonceSource };

    ghost refusal = { refusal };

    fn layer(&self) -> Layer {
        Layer::NonceSource
    }

    fn label(&self) -> Label {
        match self {
            NonceFault::NoWord => Label::at(6, 0),
        }
    }
}
