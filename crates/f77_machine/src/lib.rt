//! The machine: processes that run the statements of a program, one step at a time.
//! Beside them is the storage.
//!
//! What a step does is a definition of `f77_meaning`: each contract here cites it.
#![tactic(auto)]

mod active;
mod array;
mod assign;
mod begin;
mod chain;
mod count;
pub mod demand;
pub mod evaluated;
mod listing;
mod loops;
mod place;
mod print;
pub mod process;
mod reads;
pub mod store;
