//! What a program means: the events of a process, and the sequential run.
//!
//! The definitions are in `specs/`. Everything that speaks of runs cites them.
#![tactic(auto)]

pub mod laws;
