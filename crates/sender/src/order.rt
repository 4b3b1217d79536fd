ghost use Rattle.std.specs.Prelude.{◌≡◌};

use std::marker::Model;

/// An order to repeat the segment that begins at a start. It cannot be let go: a repeat spends it.
pub struct Order {
    start: u64,
}

/// Contracts see the start.
impl Model for Order {
    ghost use Rattle.std.specs.Prelude.{ℕ};

    ghost Value = { ℕ };

    ghost view = { λ order. order.start };
}

impl Order {
    pub(crate) fn new(start: u64) -> Order
        ensures { result ≡ start }
    {
        Order { start }
    }

    /// Ends the order, and tells the start that it named. As a public `From` it would let anybody end an order unused.
    pub(crate) fn spend(self) -> u64
        ensures { result ≡ self }
    {
        let Order { start } = self;
        start
    }
}
