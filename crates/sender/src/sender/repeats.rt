ghost use Rattle.std.specs.Prelude.{◌≡◌};
ghost use Rattle.protocol.specs.Calls.{Call, Answer};
ghost use Rattle.protocol.specs.SenderRules.{reply};
ghost use Rattle.protocol.specs.Answers.{told, to_repeat};
ghost use Rattle.sender.specs.Orders.{to_take, repeat_taken};
ghost use Rattle.sender.specs.Views.{Sound};

use super::Sender;
use crate::order::Order;
use congestion::controller::Controller;
use nonce::source::NonceSource;
use protocol::faults::SenderFault;
use protocol::segment::Segment;

impl<C: Controller, N: NonceSource, S> Sender<C, N, S> {
    /// Takes the order to repeat the oldest outstanding segment; then no repeat is due.
    pub fn take(&mut self) -> Result<Order, SenderFault>
        ensures answer { reply C.control self.old Call.take ≡ told (to_take result) self.new }
        ensures before { Sound self.old }
        ensures sound { Sound self.new }
    {
        if !self.repeat_due {
            let sent = self.sent;
            return Err(SenderFault::NoRepeatDue { sent });
        }
        self.repeat_due = false;
        // By the rules the order names 0 where nothing is outstanding; no sender comes there.
        Ok(Order::new(self.table.oldest_start().unwrap_or(0)))
    }

    /// Spends an order: the same segment again, unless it has been acknowledged meanwhile.
    pub fn repeat(&self, order: Order) -> Result<Segment, SenderFault>
        ensures answer { reply C.control self.now (Call.repeat order) ≡ told (to_repeat result) self.now }
        ensures sound { Sound self.now }
    {
        let start = order.spend();
        self.table
            .find_start(start)
            .ok_or(SenderFault::ClaimGone { start })
    }

    /// Takes a due repeat and repeats it.
    pub fn take_and_repeat(&mut self) -> Result<Segment, SenderFault>
        ensures answer { repeat_taken C.control self.old ≡ told (to_repeat result) self.new }
        ensures before { Sound self.old }
        ensures sound { Sound self.new }
    {
        let order = self.take()?;
        self.repeat(order)
    }

    /// Spends an order unused: a repeat is due again if the order's segment is the oldest outstanding one, else nothing changes.
    pub fn put_back(&mut self, order: Order)
        ensures answer { reply C.control self.old (Call.put_back order) ≡ told (Answer.returned order) self.new }
        ensures before { Sound self.old }
        ensures sound { Sound self.new }
    {
        let start = order.spend();
        if self.table.oldest_is_at(start) {
            self.repeat_due = true;
        }
    }
}
