//! Expressions of FORTRAN 77 (ANSI X3.9-1978, section 6): the one tree that a text spells, or why it spells none.
//!
//! Read by recursive descent, and proved to be what the grammar spells.
#![tactic(auto)]

pub mod cause;
pub mod expr;
pub mod grammar;
pub mod laws;
pub mod operand;
pub mod operators;
pub mod outside;
pub mod reader;
pub mod unread;
