//! Sets of addresses.
//!
//! Contracts see a set by its members alone: `has s a` of specs/ says whether the address `a` is one.
#![tactic(auto)]

pub mod addr_set;

pub use addr_set::AddrSet;
