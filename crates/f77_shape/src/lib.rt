//! The shape of a file: how its statements are cut into program units, and the rules on their order, labels, DO ranges,
//! IF blocks, jumps and numbers (ANSI X3.9-1978, sections 2.4, 3.4, 3.5 and 11).
//!
//! Each rule has a definition over the whole list of statements, and a function that finds the first statement that
//! breaks it. The cost grows with the size of the statements alone.
#![tactic(auto)]

mod blocks;
mod breaks;
mod jumps;
mod labels;
pub mod laws;
mod limits;
mod names;
mod openers;
mod order;
mod program;
mod ranges;
pub mod shape;
mod stretch_index;
mod unit_tables;
