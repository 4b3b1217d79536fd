#![tactic(auto)]

ghost use Rattle.std.specs.Prelude.{◌≡◌};
ghost use Rattle.fault.specs.declared.Layer.{Layer};
ghost use Rattle.fault.specs.Refusals.{Refusal, refusal_at, places, labelled};

/// The part of the link that refuses.
#[derive(Clone, Copy, PartialEq, Eq, Debug)]
pub enum Layer {
    Controller,
    NonceSource,
    Sender,
}

/// The values that a refusal names: mostly one, and two where the fault lies between two ends.
#[derive(Clone, Copy, PartialEq, Eq, Debug)]
pub enum Place {
    At(u64),
    Between(u64, u64),
}

/// What a refusal is known by: its number in the table of refusals, and its place.
#[derive(Clone, Copy, PartialEq, Eq, Debug)]
pub struct Label {
    pub number: u8,
    pub place: Place,
}

impl Label {
    /// A refusal that names one value.
    pub fn at(number: u8, value: u64) -> Label
        ensures { labelled result ≡ refusal_at number value }
    {
        Label {
            number,
            place: Place::At(value),
        }
    }
}

/// A refusal of the layer `origin`; `refusal` is what it means, its number and its places.
pub trait Fault {
    ghost origin: { Layer };

    ghost refusal: { Self → Refusal };

    fn layer(&self) -> Layer
        ensures { result ≡ origin };

    fn label(&self) -> Label
        ensures { labelled result ≡ refusal self.now };

    fn number(&self) -> u8
        ensures { result ≡ (refusal self.now).number }
    {
        self.label().number
    }

    fn place(&self) -> Place
        ensures { places result ≡ (refusal self.now).places }
    {
        self.label().place
    }
}
