//! Segments, what the calls of a sender answer, and, in specs/, the rules of the sender.

#![tactic(auto)]

pub mod answer;
pub mod faults;
pub mod segment;
