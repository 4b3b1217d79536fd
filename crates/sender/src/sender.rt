use claims::table::Table;
use congestion::controller::Controller;
use nonce::source::NonceSource;
use std::marker::Model;

mod acknowledges;
mod figures;
mod opening;
mod repeats;
mod room;
mod sends;
mod timeouts;

/// The most claims that may be outstanding.
const MOST_CLAIMS: usize = 64;

/// A sender that may still send.
#[derive(Clone, Copy)]
pub struct Sending;

/// A finished sender, which has every call but `send`.
#[derive(Clone, Copy)]
pub struct Finished;

/// The sending end of the link, over one controller and one nonce source.
#[derive(Drop)]
pub struct Sender<C: Controller, N: NonceSource, S = Sending> {
    controller: C,
    nonces: N,
    table: Table<MOST_CLAIMS>,
    /// The sum, modulo 2^64, of the summed nonces of the segments whose claims are gone.
    settled: u64,
    /// The bytes sent.
    sent: u64,
    /// The proved end: all bytes before it are acknowledged.
    proved: u64,
    /// The duplicates counted since the last advance or timeout.
    duplicates: u32,
    repeat_due: bool,
    stage: S,
}

/// Contracts see a sender as a state of the rules. Nothing of it is left out but its stage.
impl<C: Controller, N: NonceSource, S> Model for Sender<C, N, S> {
    ghost use Rattle.protocol.specs.Calls.{State};

    ghost Value = { State C };

    ghost use Rattle.sender.specs.Views.{state_of, Sound};

    ghost view = { state_of N.words };

    ghost invariant = { λ s. Sound (state_of N.words s) };
}

pub type FinishedSender<C, N> = Sender<C, N, Finished>;
