ghost use Rattle.std.specs.Prelude.{◌≡◌};
ghost use Rattle.congestion.specs.Control.{Control, Lawful};

/// The widest window of any controller, in bytes: 2^24.
pub const WIDEST: u32 = 16_777_216;

/// A congestion controller. What it means is `control`, and every controller keeps the laws `Lawful`.
pub trait Controller {
    ghost control: { Control Self };

    /// The bytes that may be in flight.
    fn window(&self) -> u32
        ensures { result ≡ control.window self.now };

    /// The bytes of a full segment.
    fn segment(&self) -> u32
        ensures { result ≡ control.segment self.now };

    /// `bytes` more bytes are known to have arrived.
    fn credit(&mut self, bytes: u64)
        ensures { self.new ≡ control.credit self.old bytes };

    /// A segment was lost while `flight` bytes were in flight.
    fn loss(&mut self, flight: u64)
        ensures { self.new ≡ control.loss self.old flight };

    /// Nothing came back in time while `flight` bytes were in flight.
    fn timeout(&mut self, flight: u64)
        ensures { self.new ≡ control.timeout self.old flight };

    ghost lawful: { Lawful control };
}
