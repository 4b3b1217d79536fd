ghost use Rattle.std.specs.Prelude.{Some};
ghost use Rattle.session.specs.Listing.{verdict_text, figures_text, line_text};

use crate::events::Event;
use fault::Fault;
use protocol::faults::SenderFault;
use std::fmt;

/// What became of an event: `ok`, or the refusal's number.
#[derive(Clone, Copy)]
pub struct Verdict(pub Result<(), SenderFault>);

impl fmt::Display for Verdict {
    ghost output = { λ v. Some (verdict_text v.0) };

    fn fmt<W: fmt::Write>(&self, f: &mut fmt::Formatter<W>) -> fmt::Result {
        match self.0 {
            Ok(()) => f.write_str("ok"),
            Err(fault) => {
                let number = fault.number();
                write!(f, "{number}")
            }
        }
    }
}

/// What the listing tells of a panel.
#[derive(Clone, Copy)]
pub struct Figures {
    pub proved: u64,
    pub window: u32,
    pub allowance: u64,
}

impl fmt::Display for Figures {
    ghost output = { λ figures. Some (figures_text figures) };

    fn fmt<W: fmt::Write>(&self, f: &mut fmt::Formatter<W>) -> fmt::Result {
        let Figures {
            proved,
            window,
            allowance,
        } = *self;
        write!(f, "{proved} {window} {allowance}")
    }
}

/// A line of the listing: the number of the event, its word, its verdict, and the panel's figures after it.
#[derive(Clone, Copy)]
pub struct Line {
    pub number: usize,
    pub event: Event,
    pub verdict: Verdict,
    pub figures: Figures,
}

impl fmt::Display for Line {
    ghost output = { λ line. Some (line_text line) };

    fn fmt<W: fmt::Write>(&self, f: &mut fmt::Formatter<W>) -> fmt::Result {
        let Line {
            number,
            event,
            verdict,
            figures,
        } = *self;
        write!(f, "{number} {event} {verdict} {figures}")
    }
}
