use congestion::reno::Reno;
use nonce::recorded::Recorded;
use nonce::splitmix::SplitMix64;
use protocol::faults::SenderFault;
use protocol::segment::Segment;
use sender::sender::Sender;
use std::test::Fail;

#[test]
fn lengths_and_words(rt: HostRuntime) -> Result<(), Fail> {
    let mut sender = Sender::new(Reno::new(1000)?, Recorded::new(&[1, 2, 3]));
    assert_eq!(rt; sender.send(0), Err(SenderFault::Length { sent: 0 }));
    assert_eq!(rt; sender.send(1001), Err(SenderFault::Length { sent: 0 }));
    let first = Segment {
        start: 0,
        length: 1000,
        summed: 1,
        single: 2,
    };
    assert_eq!(rt; sender.send(1000), Ok(first));
    // one word is left, and stays
    assert_eq!(rt;
        sender.send(1),
        Err(SenderFault::NonceShortage { sent: 1000 })
    );
    assert_eq!(rt;
        sender.send(1),
        Err(SenderFault::NonceShortage { sent: 1000 })
    );
    assert_eq!(rt; sender.sent(), 1000);
    Ok(())
}

#[test]
fn sixty_four_claims(rt: HostRuntime) -> Result<(), Fail> {
    let mut sender = Sender::new(Reno::new(1000)?, SplitMix64::new(0, 1000));
    for i in 0..64 {
        assert_eq!(rt; sender.send(1)?.start, i);
    }
    assert_eq!(rt; sender.send(1), Err(SenderFault::TableFull { sent: 64 }));
    // a wrong length is told first, a full table before the allowance
    assert_eq!(rt; sender.send(0), Err(SenderFault::Length { sent: 64 }));
    assert_eq!(rt; sender.send(1000), Err(SenderFault::TableFull { sent: 64 }));
    Ok(())
}

#[test]
fn allowance(rt: HostRuntime) -> Result<(), Fail> {
    let mut sender = Sender::new(Reno::new(1000)?, Recorded::new(&[1, 2, 3, 4, 5, 6, 7, 8]));
    for _ in 0..4 {
        sender.send(1000)?;
    }
    assert_eq!(rt; sender.sent(), 4000);
    assert_eq!(rt; sender.allowance(), 4000);
    // no word is left either, but the allowance is told first
    assert_eq!(rt; sender.send(1), Err(SenderFault::Allowance { sent: 4000 }));
    Ok(())
}
