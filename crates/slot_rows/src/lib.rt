//! Numbers of their own for the slots of a window: what private copies and partial results have in common.
//!
//! Each slot maps addresses of some regions to numbers. What is written is marked by bits, and the words that have a mark are
//! listed, so that a slot is emptied in time that grows with what was written in it alone.
#![tactic(auto)]

mod marks;
mod row;
pub mod rows;
mod table;
mod word;

pub use rows::Rows;
