//! The DO-loops of a file (ANSI X3.9-1978, section 11.10).
//!
//! Each DO statement has a loop: its place in the file, its range, and whether it is closed. A unit is read
//! twice: from its last statement to its first with a table of the labels that follow, which gives the ranges, and then
//! from its first to its last, which gives each range to its DO statement. So the cost grows with the number of
//! statements alone.
#![tactic(auto)]

mod following;
pub mod loops;
mod ranges;
