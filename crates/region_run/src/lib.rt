//! The region of a loop's iterations, which take their steps interleaved, over any kind of process.
//!
//! `Asks` says what a region needs of a process, and `Rows` what it needs of the copies and partials of iterations.
//! `Running` is the region: `begin`, `advance` with a pick, `finish`. What these do is defined in the crate
//! `interleaving`; each clause here is an equation with its definitions, and so its laws hold of the code.
#![tactic(auto)]

pub mod asks;
pub mod live;
pub mod picks;
pub mod rows;
pub mod running;
pub mod shared;
