ghost use Rattle.std.specs.Prelude.{◌≡◌};
ghost use Rattle.protocol.specs.Segments.{begun_before, ends_by, echoed_past};

/// A run of the stream's bytes with its two nonces, as a send answers it and a repeat answers it again.
#[derive(Clone, Copy, PartialEq, Eq, Debug, Default)]
pub struct Segment {
    /// The bytes of the stream before it.
    pub start: u64,
    pub length: u16,
    /// The nonce that acknowledgements add up.
    pub summed: u64,
    /// The nonce that a duplicate echoes.
    pub single: u64,
}

impl Segment {
    /// Whether it starts below an end.
    pub fn begun_before(&self, end: u64) -> bool
        ensures { result ≡ begun_before end self.now }
    {
        self.start < end
    }

    /// Whether all of it lies below an end. The sum of start and length might not fit, so it is not made.
    pub fn ends_by(&self, end: u64) -> bool
        ensures { result ≡ ends_by end self.now }
    {
        self.start <= end && u64::from(self.length) <= end - self.start
    }

    /// Whether it starts beyond an end and its single nonce is the echo.
    pub fn echoed_past(&self, end: u64, echo: u64) -> bool
        ensures { result ≡ echoed_past end echo self.now }
    {
        end < self.start && self.single == echo
    }
}

/// An outstanding segment: sent, and not yet acknowledged to its end.
#[derive(Clone, Copy, Default)]
pub struct Claim {
    pub segment: Segment,
    /// Whether a duplicate was counted for it.
    pub spent: bool,
}
