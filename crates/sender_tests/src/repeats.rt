use congestion::controller::Controller;
use congestion::reno::Reno;
use nonce::recorded::Recorded;
use nonce::source::NonceSource;
use protocol::answer::Acknowledged;
use protocol::faults::SenderFault;
use protocol::segment::Segment;
use sender::sender::Sender;
use std::process::Abort;
use std::test::Fail;

#[test]
fn timeout_and_repeat(rt: HostRuntime) -> Result<(), Fail> {
    let mut sender = Sender::new(Reno::new(1000)?, Recorded::new(&[1, 2, 3, 4]));
    assert_eq!(rt;
        sender.timeout(),
        Err(SenderFault::NothingInFlight { sent: 0 })
    );
    sender.send(1000)?;
    sender.send(1000)?;
    assert_eq!(rt;
        sender.acknowledge(0, 0, 4),
        Ok(Acknowledged::Counted { start: 1000 })
    );
    assert_eq!(rt; sender.allowance(), 5000);
    sender.timeout()?;
    assert_eq!(rt; sender.window(), 1000);
    assert_eq!(rt; sender.allowance(), 1000);
    // the mark of a counted claim outlasts the timeout
    assert_eq!(rt;
        sender.acknowledge(0, 0, 4),
        Err(SenderFault::SpentEcho { end: 0 })
    );
    assert!(rt; sender.repeat_due());
    let first = Segment {
        start: 0,
        length: 1000,
        summed: 1,
        single: 2,
    };
    let order = sender.take()?;
    assert_eq!(rt; sender.repeat(order), Ok(first));
    assert!(rt; !sender.repeat_due());
    Ok(())
}

// no repeat is due, after so many bytes sent
fn none_due<C: Controller, N: NonceSource, S>(
    rt: &impl Abort,
    sender: &mut Sender<C, N, S>,
    sent: u64,
) -> Result<(), Fail> {
    match sender.take() {
        Ok(order) => {
            sender.repeat(order)?;
            Err(Fail::new("an order was taken"))
        }
        Err(fault) => {
            assert_eq!(rt; fault, SenderFault::NoRepeatDue { sent });
            Ok(())
        },
    }
}

#[test]
fn finished_sender(rt: HostRuntime) -> Result<(), Fail> {
    let mut sender = Sender::new(Reno::new(1000)?, Recorded::new(&[1, 2]));
    none_due(&rt, &mut sender, 0)?;
    sender.send(10)?;
    let mut finished = sender.finish();
    finished.timeout()?;
    let order = finished.take()?;
    let advanced = finished.acknowledge(10, 1, 0);
    let gone = finished.repeat(order);
    assert_eq!(rt; advanced, Ok(Acknowledged::Advanced));
    assert_eq!(rt; gone, Err(SenderFault::ClaimGone { start: 0 }));
    none_due(&rt, &mut finished, 10)?;
    assert_eq!(rt; finished.proved(), finished.sent());
    Ok(())
}

#[test]
fn order_put_back(rt: HostRuntime) -> Result<(), Fail> {
    let mut sender = Sender::new(Reno::new(1000)?, Recorded::new(&[1, 2, 3, 4]));
    sender.send(1000)?;
    sender.send(500)?;
    sender.timeout()?;
    let order = sender.take()?;
    let due_while_taken = sender.repeat_due();
    // its claim is the oldest, so that the repeat is due again and can be taken again
    sender.put_back(order);
    assert!(rt; !due_while_taken);
    assert!(rt; sender.repeat_due());
    let mut finished = sender.finish();
    let early = finished.take()?;
    // halfway into the first segment its claim still is the oldest
    let halfway = finished.acknowledge(400, 1, 0);
    finished.put_back(early);
    assert_eq!(rt; halfway, Ok(Acknowledged::Advanced));
    assert!(rt; finished.repeat_due());
    let late = finished.take()?;
    // with the first segment acknowledged, nothing is due, and an order for it changes nothing
    let past = finished.acknowledge(1000, 1, 0);
    finished.put_back(late);
    assert_eq!(rt; past, Ok(Acknowledged::Advanced));
    none_due(&rt, &mut finished, 1500)?;
    // the next timeout orders the second segment
    finished.timeout()?;
    let second = finished.take()?;
    assert_eq!(rt;
        finished.repeat(second),
        Ok(Segment {
            start: 1000,
            length: 500,
            summed: 3,
            single: 4,
        })
    );
    Ok(())
}
