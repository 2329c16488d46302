//! The lines of row files: cases as data, which a judge runs and compares.
//!
//! The first byte of a line says what the line is. `lines` gives the lines of a file with their numbers, their marks
//! and their texts, in which escapes are done. `Shown` shows bytes with the same escapes.
#![tactic(auto)]

pub mod escape;
pub mod line;
pub mod mark;
mod repeat;
pub mod shown;
mod text;

pub use line::lines;
