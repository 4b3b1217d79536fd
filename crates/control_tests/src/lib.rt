//! Examples of controllers and nonce sources, as tests; in a crate of their own, so that the others are proved without them.

#![tactic(auto)]

#[cfg(test)]
mod controllers;
#[cfg(test)]
mod nonces;
