//! The trees of FORTRAN 77 programs, and the tables of a program that was read.
//!
//! Types alone: what reads, copies, compares and evaluates them is in the crates above. Above each type of
//! a tree is what it spells, with its section of ANSI X3.9-1978.
#![tactic(auto)]

pub mod code;
pub mod data;
pub mod entities;
pub mod expr;
pub mod fault;
pub mod limits;
pub mod name;
pub mod program;
pub mod refusal;
pub mod rule;
pub mod specification;
pub mod step;
pub mod stmt;
