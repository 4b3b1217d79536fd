ghost use Rattle.std.specs.Prelude.{◌≡◌, ℕ, ◌^◌, ◌<◌, ◌≤◌};
ghost use Rattle.congestion.specs.Growths.{Bounded, NeverZero, HasRoom};

use crate::controller::WIDEST;
use crate::faults::ControllerFault;
use crate::starts::first_window;
use std::marker::PhantomData;

/// How many credited bytes widen a window by a segment.
pub(crate) trait Increase {
    ghost limit: { ℕ → ℕ → ℕ };

    /// The carry at which a window of these sizes grows.
    fn limit(segment: u32, window: u32) -> u64
        requires { 0 < segment }
        ensures { result ≡ limit segment window };

    ghost never_zero: { NeverZero limit };

    ghost has_room: { HasRoom limit };
}

/// A window that grows by a segment each time that the carry reaches its limit. It has no model, since the laws of Reno and IIAD read its bound.
#[derive(Drop)]
pub(crate) struct Growth<I: Increase> {
    pub(crate) segment: u32,
    pub(crate) window: u32,
    /// The credited bytes since the window last grew by a segment.
    pub(crate) carry: u64,
    increase: PhantomData<I>,
    ghost bounded: { Bounded I.limit (record { segment = segment; window = window; carry = carry }) },
}

impl<I: Increase> Growth<I> {
    ghost use Rattle.std.specs.Fn.{iterate};
    ghost use Rattle.congestion.specs.AtOnce.{missing, widens, carried};
    ghost use Rattle.congestion.specs.Growths.{fresh, wider, fill};
    ghost use Rattle.congestion.specs.Starts.{first_window, Makes};
    ghost use Rattle.congestion.specs.Views.{sizes};

    /// This window, and nothing in the carry.
    pub(crate) fn new(segment: u32, window: u32) -> Growth<I>
        requires small { 64 ≤ segment }
        requires large { segment ≤ 9000 }
        requires least { segment ≤ window }
        requires most { window ≤ 2 ^ 24 }
        ensures { sizes result ≡ fresh segment window }
    {
        Growth {
            segment,
            window,
            carry: 0,
            increase: PhantomData,
        }
    }

    /// The first window of a segment size, and nothing in the carry.
    pub(crate) fn first(segment: u32) -> Result<Growth<I>, ControllerFault>
        ensures { Makes (λ g. sizes g ≡ fresh segment (first_window segment)) segment result }
    {
        let window = first_window(segment)?;
        Ok(Growth::new(segment, window))
    }

    /// A window of one segment, and nothing in the carry.
    pub(crate) fn restart(&mut self)
        ensures { sizes self.new ≡ fresh (sizes self.old).segment (sizes self.old).segment }
    {
        self.window = self.segment;
        self.carry = 0;
    }

    /// The bytes that the carry is short of its limit.
    fn missing(&self) -> u64
        ensures { result ≡ missing I.limit (sizes self.now) }
    {
        I::limit(self.segment, self.window) - self.carry
    }

    /// Whether so many bytes widen the window.
    fn widens(&self, bytes: u64) -> bool
        ensures { result ≡ widens I.limit (sizes self.now) bytes }
    {
        self.window < WIDEST && bytes >= self.missing()
    }

    /// A segment wider, and the carry at 0.
    fn grow(&mut self)
        ensures { sizes self.new ≡ wider (sizes self.old) }
    {
        self.window = (self.window + self.segment).min(WIDEST);
        self.carry = 0;
    }

    /// Bytes that do not widen the window go to the carry: at the widest window it goes round.
    fn carry_over(&mut self, bytes: u64)
        ensures { sizes self.new ≡ carried I.limit (sizes self.old) bytes }
    {
        let limit = I::limit(self.segment, self.window);
        self.carry = (self.carry + bytes % limit) % limit;
    }

    /// `bytes` credited bytes. Each turn of the loop is a return of the carry to 0, and there is none at the widest window.
    #[tactic(auto, using(crate::specs::Fillings::turns, crate::specs::Fillings::ends))]
    pub(crate) fn credit(&mut self, bytes: u64)
        ensures { sizes self.new ≡ iterate (fill I.limit) bytes (sizes self.old) }
    {
        let mut left = bytes;
        while self.widens(left) {
            left -= self.missing();
            self.grow();
        }
        self.carry_over(left);
    }
}
