//! The rules that join the sets of statements: one after another, under a condition, over a loop.
#![tactic(auto)]

pub mod gate;
pub mod looped;
pub mod sequence;
