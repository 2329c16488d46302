//! Symbols over the bindings and the storage of a program, what they are worth, and descriptors of addresses.
#![tactic(auto)]

pub mod copy;
pub mod each;
pub mod ends;
pub mod gain;
pub mod interval;
pub mod lmad;
pub mod numbers;
pub mod put;
pub mod same;
pub mod sym;
pub mod value;
