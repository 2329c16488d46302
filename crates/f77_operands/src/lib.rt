//! The limit on the operands of a program.
//!
//! A statement needs an operand for each of its literals and names, which `f77_leaves` lists, and a unit as many as that of
//! its statements that needs most. A file is refused at the statement at which the needs of its units by now add up to more
//! than 32,768. Memory is taken for what is in one statement at a time.
#![tactic(auto)]

mod capped;
pub mod laws;
pub mod limit;
pub mod needs;
