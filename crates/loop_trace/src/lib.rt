//! The book of a loop: it is told the accesses of the loop's iterations, and judges whether they are independent.
//!
//! Contracts speak of the traces that a book was told by one relation, `Told` of specs/.
#![tactic(auto)]

pub mod book;
mod cell;
mod marks;
mod regions;

pub use book::Book;
pub use dependence::modes::{Judged, Mode, Modes, Pair, Verdict};
