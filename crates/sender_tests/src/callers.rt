ghost use Rattle.std.specs.Prelude.{◌≤◌, ◌^◌, length};

use claims::table::Table;
use congestion::controller::Controller;
use congestion::reno::Reno;
use nonce::recorded::Recorded;
use nonce::source::NonceSource;
use protocol::answer::Acknowledged;
use protocol::segment::{Claim, Segment};
use sender::sender::Sender;
use std::test::Fail;

// A caller sees of a sender its state alone and of a table its claims, so these are proved from what each call tells of every sender and every table.

// The bytes sent and not yet acknowledged: no more are acknowledged than sent.
fn outstanding<C: Controller, N: NonceSource, S>(sender: &Sender<C, N, S>) -> u64 {
    sender.sent() - sender.proved()
}

// A byte more: the stream has at most 2^40 before, and after it too, also after a refusal; and the table has at most 64 claims.
fn send_one<C: Controller, N: NonceSource>(sender: &mut Sender<C, N>) -> bool
    ensures before { sender.old.sent ≤ 2 ^ 40 }
    ensures limited { sender.new.sent ≤ 2 ^ 40 }
    ensures few { length sender.new.claims ≤ 64 }
{
    sender.send(1).is_ok()
}

// The end that a segment of 9000 bytes more would have, counted from the proved end: no sum goes past 2^64.
fn one_segment_more<C: Controller, N: NonceSource, S>(sender: &Sender<C, N, S>) -> u64 {
    sender.sent() + 9000 - sender.proved()
}

// Nothing that is done to a table brings it past its room.
fn retired(table: &mut Table<2>, end: u64) -> u64
    ensures before { length table.old ≤ 2 }
    ensures after { length table.new ≤ 2 }
{
    table.retire(end, 0)
}

#[test]
fn room_of_a_table(rt: HostRuntime) -> Result<(), Fail> {
    let mut table: Table<2> = Table::new();
    let claim = Claim {
        segment: Segment {
            start: 0,
            length: 10,
            summed: 7,
            single: 0,
        },
        spent: false,
    };
    assert_eq!(rt; table.push(claim), Ok(()));
    assert_eq!(rt; retired(&mut table, 9), 0);
    assert_eq!(rt; table.claims().len(), 1);
    assert_eq!(rt; retired(&mut table, 10), 7);
    assert_eq!(rt; table.claims().len(), 0);
    Ok(())
}

#[test]
fn what_always_holds(rt: HostRuntime) -> Result<(), Fail> {
    let mut sender = Sender::new(Reno::new(1000)?, Recorded::new(&[1, 2, 3, 4]));
    assert_eq!(rt; outstanding(&sender), 0);
    sender.send(1000)?;
    assert!(rt; send_one(&mut sender));
    // no word is left
    assert!(rt; !send_one(&mut sender));
    assert_eq!(rt; outstanding(&sender), 1001);
    assert_eq!(rt; sender.acknowledge(400, 1, 0), Ok(Acknowledged::Advanced));
    assert_eq!(rt; outstanding(&sender), 601);
    let finished = sender.finish();
    assert_eq!(rt; one_segment_more(&finished), 9601);
    Ok(())
}
