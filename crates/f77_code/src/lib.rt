//! Postfix code: compiles the statements of a unit.
//!
//! What code does, and that it is the code of a unit, is said in f77_meaning (`specs/Perform.antt`, `specs/IsCodeOf.antt`).
#![tactic(auto)]

mod chain;
mod exprs;
mod items;
mod statements;
pub mod units;
