//! Laws on the loops of a program in the steps of its processes: how a loop begins, turns and ends. With them an execution of a loop is
//! cut into its iterations.
//!
//! The definitions are in `specs/`, the laws in [`laws`].
#![tactic(auto)]

pub mod laws;
