//! Congestion controllers: how many bytes a sender may have in flight.

#![tactic(auto)]

pub mod cap;
pub mod controller;
pub mod faults;
mod growth;
pub mod iiad;
mod increases;
pub mod narrowed;
pub mod reno;
pub mod share;
mod starts;
