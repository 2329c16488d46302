//! Private copies: what the iterations of a loop write for themselves until they are committed.
#![tactic(auto)]

pub mod copies;

pub use copies::Copies;
