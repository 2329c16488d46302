//! The names of a program: what is broken in them, and its variables, arrays, dummy arguments, results and constants
//! (ANSI X3.9-1978, sections 2.5 to 2.8).
//!
//! The rules on names are in the crates below: declarations and uses, kinds and numbers of operands, and where constants are due.
#![tactic(auto)]

pub mod entities;
mod entity;
pub mod laws;
pub mod resolve;
