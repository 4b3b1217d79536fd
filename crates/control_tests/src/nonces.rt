use fault::{Fault, Layer, Place};
use nonce::recorded::Recorded;
use nonce::source::{NonceFault, NonceSource};
use nonce::splitmix::SplitMix64;
use std::process::Abort;
use std::test::Fail;

// these words come in this order, and then none, however often it is asked
fn gives<N: NonceSource>(rt: &impl Abort, source: &mut N, words: &[u64]) -> Result<(), Fail> {
    for (drawn, word) in words.iter().enumerate() {
        assert_eq!(rt; source.left(), (words.len() - drawn) as u64);
        assert_eq!(rt; source.draw()?, *word);
    }
    assert_eq!(rt; source.draw(), Err(NonceFault::NoWord));
    assert_eq!(rt; source.draw(), Err(NonceFault::NoWord));
    assert_eq!(rt; source.left(), 0);
    Ok(())
}

#[test]
fn reference_outputs(rt: HostRuntime) -> Result<(), Fail> {
    let seeds = [
        (
            0,
            [
                0xE220A8397B1DCDAF,
                0x6E789E6AA1B965F4,
                0x06C45D188009454F,
                0xF88BB8A8724C81EC,
                0x1B39896A51A8749B,
            ],
        ),
        (
            1234567,
            [
                6457827717110365317,
                3203168211198807973,
                9817491932198370423,
                4593380528125082431,
                16408922859458223821,
            ],
        ),
    ];
    for (seed, words) in seeds {
        gives(&rt, &mut SplitMix64::new(seed, 5), &words)?;
    }
    Ok(())
}

#[test]
fn recorded_words_in_order(rt: HostRuntime) -> Result<(), Fail> {
    gives(
        &rt,
        &mut Recorded::new(&[7, 0, 7, u64::MAX]),
        &[7, 0, 7, u64::MAX],
    )?;
    gives(&rt, &mut Recorded::new(&[]), &[])
}

#[test]
fn counts(rt: HostRuntime) {
    let counts = [
        (0, 0),
        (1, 1),
        (0xFFFF_FFFF, 0xFFFF_FFFF),
        (0x1_0000_0000, 0x1_0000_0000),
        (0x1_0000_0001, 0x1_0000_0000),
        (u64::MAX, 0x1_0000_0000),
    ];
    for (count, left) in counts {
        assert_eq!(rt; SplitMix64::new(3, count).left(), left);
    }
}

#[test]
fn refusal(rt: HostRuntime) -> Result<(), Fail> {
    let Err(fault) = SplitMix64::new(0, 0).draw() else {
        return Err(Fail::new("a word was drawn"));
    };
    assert_eq!(rt; fault.layer(), Layer::NonceSource);
    assert_eq!(rt; fault.number(), 6);
    assert_eq!(rt; fault.place(), Place::At(0));
    Ok(())
}
