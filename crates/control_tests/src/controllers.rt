use congestion::cap::Cap;
use congestion::controller::{Controller, WIDEST};
use congestion::iiad::Iiad;
use congestion::reno::Reno;
use congestion::share::Share;
use fault::{Fault, Layer, Place};
use std::process::Abort;
use std::test::Fail;

/// Each row is a credit and the window after it.
fn check_credits<C: Controller>(rt: &impl Abort, c: &mut C, rows: &[(u64, u32)]) {
    for (bytes, window) in rows {
        c.credit(*bytes);
        assert_eq!(rt; c.window(), *window);
    }
}

#[test]
fn first_windows_and_refusals(rt: HostRuntime) -> Result<(), Fail> {
    for (segment, window) in [(1095, 4380), (1096, 3288), (2191, 4382)] {
        assert_eq!(rt; Reno::new(segment)?.window(), window);
        assert_eq!(rt; Iiad::new(segment)?.window(), window);
    }
    for size in [63, 9001] {
        let Err(refused) = Reno::new(size) else {
            return Err(Fail::new("a segment size that is not refused"));
        };
        assert_eq!(rt; refused.layer(), Layer::Controller);
        assert_eq!(rt; refused.number(), 1);
        assert_eq!(rt; refused.place(), Place::At(size as u64));
    }
    Ok(())
}

#[test]
fn reno_windows(rt: HostRuntime) -> Result<(), Fail> {
    let mut reno = Reno::new(1000)?;
    check_credits(&rt, &mut reno, &[(1500, 5500)]);
    reno.loss(3500);
    check_credits(&rt, &mut reno, &[(0, 2000), (1999, 2000), (1, 3000)]);
    reno.loss(0);
    check_credits(&rt, &mut reno, &[(3500, 3000), (1499, 3000), (1, 4000)]);
    reno.timeout(6000);
    check_credits(
        &rt,
        &mut reno,
        &[(0, 1000), (2000, 3000), (2999, 3000), (1, 4000)],
    );
    check_credits(&rt, &mut reno, &[(u64::MAX, WIDEST), (u64::MAX, WIDEST)]);
    Ok(())
}

#[test]
fn iiad_windows(rt: HostRuntime) -> Result<(), Fail> {
    let mut iiad = Iiad::new(1000)?;
    check_credits(&rt, &mut iiad, &[(15_999, 4000), (1, 5000)]);
    iiad.loss(0);
    check_credits(&rt, &mut iiad, &[(0, 4000), (u64::MAX, WIDEST)]);
    iiad.timeout(0);
    check_credits(&rt, &mut iiad, &[(999, 1000), (1, 2000)]);
    Ok(())
}

#[test]
fn layers(rt: HostRuntime) -> Result<(), Fail> {
    let mut share = Share::new(Reno::new(1000)?, 3);
    check_credits(&rt, &mut share, &[(0, 1500)]);
    share.loss(0);
    check_credits(&rt, &mut share, &[(0, 1000)]);
    let mut cap = Cap::new(Iiad::new(1000)?, 4500);
    check_credits(&rt, &mut cap, &[(0, 4000), (16_000, 4500)]);
    cap.timeout(0);
    check_credits(&rt, &mut cap, &[(0, 1000)]);
    Ok(())
}
