//! The table of claims that a sender holds: its outstanding segments, the oldest first.

#![tactic(auto)]

pub mod faults;
pub mod table;
mod walks;
