use fault::{Fault, Layer, Place};
use protocol::faults::SenderFault;

#[test]
fn numbers_and_places(rt: HostRuntime) {
    let rows = [
        (SenderFault::Length { sent: 102 }, 2, Place::At(102)),
        (SenderFault::StreamFull { sent: 103 }, 3, Place::At(103)),
        (SenderFault::TableFull { sent: 104 }, 4, Place::At(104)),
        (SenderFault::Allowance { sent: 105 }, 5, Place::At(105)),
        (SenderFault::NonceShortage { sent: 106 }, 6, Place::At(106)),
        (SenderFault::BeyondSent { end: 107 }, 7, Place::At(107)),
        (SenderFault::BelowProved { end: 108 }, 8, Place::At(108)),
        (
            SenderFault::WrongSum {
                proved: 9,
                end: 109,
            },
            9,
            Place::Between(9, 109),
        ),
        (SenderFault::UnknownEcho { end: 110 }, 10, Place::At(110)),
        (SenderFault::SpentEcho { end: 111 }, 11, Place::At(111)),
        (
            SenderFault::NothingInFlight { sent: 112 },
            12,
            Place::At(112),
        ),
        (SenderFault::NoRepeatDue { sent: 113 }, 13, Place::At(113)),
        (SenderFault::ClaimGone { start: 114 }, 14, Place::At(114)),
    ];
    for (fault, number, place) in rows {
        assert_eq!(rt; fault.layer(), Layer::Sender);
        assert_eq!(rt; fault.number(), number);
        assert_eq!(rt; fault.place(), place);
    }
}
