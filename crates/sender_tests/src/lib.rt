//! Examples of the sender's calls, as tests; in a crate of their own, so that the sender is proved without them.

#![tactic(auto)]

#[cfg(test)]
mod acknowledgements;
#[cfg(test)]
mod callers;
#[cfg(test)]
mod faults;
#[cfg(test)]
mod repeats;
#[cfg(test)]
mod sends;
