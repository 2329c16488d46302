//! What is done with the trees of f77_ast as wholes: which are the same, and copies.
#![tactic(auto)]

pub mod copy;
pub mod same;
