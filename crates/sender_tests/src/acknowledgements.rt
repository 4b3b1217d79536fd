use congestion::reno::Reno;
use nonce::recorded::Recorded;
use protocol::answer::Acknowledged;
use protocol::faults::SenderFault;
use sender::sender::Sender;
use std::process::Abort;
use std::test::Fail;

type Outcome = Result<Acknowledged, SenderFault>;

// after segments of 1000 bytes, one for each two words, these acknowledgements have these outcomes
fn play(
    rt: &impl Abort,
    words: &[u64],
    acknowledgements: &[((u64, u64, u64), Outcome)],
) -> Result<(), Fail> {
    let mut sender = Sender::new(Reno::new(1000)?, Recorded::new(words));
    for _ in 0..words.len() / 2 {
        sender.send(1000)?;
    }
    for ((end, sum, echo), outcome) in acknowledgements {
        assert_eq!(rt; sender.acknowledge(*end, *sum, *echo), *outcome);
    }
    Ok(())
}

#[test]
fn refusals_and_duplicates(rt: HostRuntime) -> Result<(), Fail> {
    play(
        &rt,
        &[10, 20, 30, 40, 50, 60, 70, 80],
        &[
            // beyond the bytes sent, whatever the sum
            ((4001, 160, 0), Err(SenderFault::BeyondSent { end: 4001 })),
            // nothing is begun before the end 0, and nobody echoes 5
            ((0, 0, 5), Err(SenderFault::UnknownEcho { end: 0 })),
            ((0, 1, 5), Err(SenderFault::WrongSum { proved: 0, end: 0 })),
            // into the first segment: its nonce counts whole
            (
                (500, 0, 0),
                Err(SenderFault::WrongSum {
                    proved: 0,
                    end: 500,
                }),
            ),
            ((500, 10, 0), Ok(Acknowledged::Advanced)),
            ((499, 10, 0), Err(SenderFault::BelowProved { end: 499 })),
            // 20 is the single nonce of the segment that the proved end stands in
            ((500, 10, 20), Err(SenderFault::UnknownEcho { end: 500 })),
            ((500, 10, 40), Ok(Acknowledged::Counted { start: 1000 })),
            ((500, 10, 40), Err(SenderFault::SpentEcho { end: 500 })),
            ((500, 10, 80), Ok(Acknowledged::Counted { start: 3000 })),
            ((500, 10, 60), Ok(Acknowledged::Lost { start: 2000 })),
            // to the end of the first segment, and into the second
            ((1000, 10, 0), Ok(Acknowledged::Advanced)),
            (
                (1001, 10, 0),
                Err(SenderFault::WrongSum {
                    proved: 1000,
                    end: 1001,
                }),
            ),
            ((1001, 40, 0), Ok(Acknowledged::Advanced)),
            ((4000, 160, 0), Ok(Acknowledged::Advanced)),
            ((4000, 160, 80), Err(SenderFault::UnknownEcho { end: 4000 })),
        ],
    )
}

#[test]
fn one_single_nonce_twice(rt: HostRuntime) -> Result<(), Fail> {
    play(
        &rt,
        &[1, 2, 3, 7, 4, 7],
        &[
            ((0, 0, 7), Ok(Acknowledged::Counted { start: 1000 })),
            ((0, 0, 7), Ok(Acknowledged::Counted { start: 2000 })),
            ((0, 0, 7), Err(SenderFault::SpentEcho { end: 0 })),
        ],
    )
}

#[test]
fn sums_wrap(rt: HostRuntime) -> Result<(), Fail> {
    play(
        &rt,
        &[u64::MAX, 0, 2, 0],
        &[
            ((1, u64::MAX, 0), Ok(Acknowledged::Advanced)),
            (
                (1001, 0, 0),
                Err(SenderFault::WrongSum {
                    proved: 1,
                    end: 1001,
                }),
            ),
            ((1001, 1, 0), Ok(Acknowledged::Advanced)),
        ],
    )
}
