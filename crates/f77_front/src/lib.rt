//! The front end: from the bytes of a file to a program (ANSI X3.9-1978, sections 3, 5, 8 to 12, 14 and 17).
//!
//! A file goes through six groups of refusals, each with crates of its own: cards, statements, the shape of the file, its names,
//! the limit on operands, and what is built by now. The first group that refuses gives the refusal.
#![tactic(auto)]

pub mod front;
pub mod laws;
mod program;
mod statements;
