//! Schedules: which live iteration of an interleaved loop takes the next step.
//!
//! A schedule is read from a short text, and gives a number of 64 bits, a pick, for each step. What a schedule
//! says and what its picks are is defined over the lines of the text; `read` and `pick` are proved to give just that.
#![tactic(auto)]

pub mod laws;
mod lines;
mod mix;
mod number;
mod reader;
pub mod schedule;
mod spelling;

pub use reader::read;
