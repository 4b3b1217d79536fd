//! Shows an order that is put back, taken again and repeated.

#![tactic(auto)]

mod orders;

use congestion::controller::Controller;
use congestion::reno::Reno;
use fault::Fault;
use nonce::recorded::Recorded;
use orders::repeat_put_back;
use protocol::segment::Segment;
use sender::sender::Sender;
use std::io;

/// The one segment in flight is due again after a timeout; its order is put back before it is used.
fn main(rt: HostRuntime) -> io::Result<()> {
    let words: [u64; 2] = [10, 20];
    let mut panel = Sender::new(Reno::new(1000).unwrap(), Recorded::new(&words));
    let _ = panel.send(1000);
    let _ = panel.timeout();
    match repeat_put_back(&mut panel) {
        Ok(Segment { start, length, .. }) => {
            println!(rt; "put back, taken again and repeated: {length} bytes from {start}")
        }
        Err(fault) => {
            let number = fault.number();
            println!(rt; "put back, then refused {number}")
        }
    }
}
