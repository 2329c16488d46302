//! The values of the named constants of a unit (ANSI X3.9-1978, sections 6.7, 8.4.2 and 8.6).
//!
//! The constants of a unit are gone through so that each comes after those that its expression names; each value is worked out
//! once, from those that are known. That what comes out are the values that constants have doesn't rest on this order: passes
//! go on till one of them finds nothing more.
#![tactic(auto)]

pub mod constants;
pub mod evaluate;
pub mod laws;
pub mod lengths;
mod naming;
mod operate;
mod order;
mod texts;
pub mod value;
