//! Nonce sources: lists of 64-bit words that are drawn one by one.

#![tactic(auto)]

pub mod recorded;
pub mod source;
pub mod splitmix;
