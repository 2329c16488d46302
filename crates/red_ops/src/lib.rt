//! Reductions: the operators of accumulations, and the partial results of the iterations of a loop.
#![tactic(auto)]

pub mod laws;
pub mod ops;
pub mod partials;

pub use ops::{apply, identity};
pub use partials::{Ops, Partials};
