ghost use Rattle.fault.specs.declared.Layer.TheVariants.{Sender};
ghost use Rattle.protocol.specs.Faults.{refusal};

use fault::{Fault, Label, Layer, Place};

/// Why a call of the sender is refused, with the values that name the place.
#[derive(Clone, Copy, PartialEq, Eq, Debug)]
pub enum SenderFault {
    /// 2: the length is 0 or above the segment size.
    Length { sent: u64 },
    /// 3: the stream would pass 2^40 bytes.
    StreamFull { sent: u64 },
    /// 4: 64 claims are outstanding.
    TableFull { sent: u64 },
    /// 5: more bytes would be in flight than the allowance.
    Allowance { sent: u64 },
    /// 6: fewer than two words are left.
    NonceShortage { sent: u64 },
    /// 7: the end lies beyond the bytes sent.
    BeyondSent { end: u64 },
    /// 8: the end lies below the proved end.
    BelowProved { end: u64 },
    /// 9: the sum is not the true sum.
    WrongSum { proved: u64, end: u64 },
    /// 10: no claim that starts beyond the proved end has the echo.
    UnknownEcho { end: u64 },
    /// 11: every such claim is spent.
    SpentEcho { end: u64 },
    /// 12: nothing is in flight.
    NothingInFlight { sent: u64 },
    /// 13: no repeat is due.
    NoRepeatDue { sent: u64 },
    /// 14: the order's claim is gone.
    ClaimGone { start: u64 },
}

impl Fault for SenderFault {
    ghost origin = { Sender };

    ghost refusal = { refusal };

    fn layer(&self) -> Layer {
        Layer::Sender
    }

    fn label(&self) -> Label {
        match *self {
            SenderFault::Length { sent } => Label::at(2, sent),
            SenderFault::StreamFull { sent } => Label::at(3, sent),
            SenderFault::TableFull { sent } => Label::at(4, sent),
            SenderFault::Allowance { sent } => Label::at(5, sent),
            SenderFault::NonceShortage { sent } => Label::at(6, sent),
            SenderFault::BeyondSent { end } => Label::at(7, end),
            SenderFault::BelowProved { end } => Label::at(8, end),
            SenderFault::WrongSum { proved, end } => Label {
                number: 9,
                place: Place::Between(proved, end),
            },
            SenderFault::UnknownEcho { end } => Label::at(10, end),
            SenderFault::SpentEcho { end } => Label::at(11, end),
            SenderFault::NothingInFlight { sent } => Label::at(12, sent),
            SenderFault::NoRepeatDue { sent } => Label::at(13, sent),
            SenderFault::ClaimGone { start } => Label::at(14, start),
        }
    }
}
