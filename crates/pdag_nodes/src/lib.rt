//! Predicates over symbols, as a list of nodes each of which names earlier ones, and their truth.
#![tactic(auto)]

pub mod eval;
pub mod pred;
pub mod preds;
pub mod stable;
pub mod windows;
