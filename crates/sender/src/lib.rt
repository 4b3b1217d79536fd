//! The sending end of the link.

#![tactic(auto)]

pub mod order;
pub mod sender;
