//! Plays one panel session, from the first send to the last acknowledgement, and prints a line for each event.

#![tactic(auto)]

mod events;
mod listing;

use congestion::cap::Cap;
use congestion::controller::WIDEST;
use congestion::reno::Reno;
use congestion::share::Share;
use events::Event;
use listing::{Figures, Line, Verdict};
use nonce::recorded::Recorded;
use sender::sender::Sender;
use std::io;

const WORDS: [u64; 10] = [10, 20, 30, 40, 50, 60, 70, 80, 90, 100];

const EVENTS: [Event; 15] = [
    Event::Send { length: 1000 },
    Event::Send { length: 1000 },
    Event::Send { length: 1000 },
    Event::Send { length: 1000 },
    Event::Send { length: 1 },
    Event::Acknowledge {
        end: 500,
        sum: 10,
        echo: 0,
    },
    Event::Acknowledge {
        end: 1500,
        sum: 10,
        echo: 0,
    },
    Event::Acknowledge {
        end: 1500,
        sum: 40,
        echo: 0,
    },
    Event::Acknowledge {
        end: 1500,
        sum: 40,
        echo: 60,
    },
    Event::Acknowledge {
        end: 1500,
        sum: 40,
        echo: 40,
    },
    Event::Acknowledge {
        end: 1500,
        sum: 40,
        echo: 80,
    },
    Event::Send { length: 1000 },
    Event::Acknowledge {
        end: 1500,
        sum: 40,
        echo: 100,
    },
    Event::Again,
    Event::Acknowledge {
        end: 5000,
        sum: 250,
        echo: 0,
    },
];

fn main(rt: HostRuntime) -> io::Result<()> {
    let reno = Reno::new(1000).unwrap();
    let mut panel = Sender::new(Cap::new(Share::new(reno, 8), WIDEST), Recorded::new(&WORDS));
    let mut refused: u32 = 0;
    for (i, event) in EVENTS.iter().enumerate() {
        let verdict = event.play(&mut panel);
        if verdict.is_err() {
            refused += 1;
        }
        let line = Line {
            number: i + 1,
            event: *event,
            verdict: Verdict(verdict),
            figures: Figures {
                proved: panel.proved(),
                window: panel.window(),
                allowance: panel.allowance(),
            },
        };
        println!(rt; "{line}")?;
    }
    let finished = panel.finish();
    let proved = finished.proved();
    println!(rt; "proved {proved} refused {refused}")
}
