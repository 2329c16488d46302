//! Lists, wrapped 64-bit arithmetic, decimal texts, operators, bindings and the storage that programs run over.
//!
//! Every crate of the project uses this one.
#![tactic(auto)]

pub mod bytes;
pub mod cells;
pub mod count;
pub mod decimal;
pub mod env;
pub mod list;
pub mod near;
pub mod no_memory;
pub mod nums;
pub mod ops;
pub mod reduction;
pub mod words;
pub mod wrap;
