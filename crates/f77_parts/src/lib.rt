//! The parts that statements of FORTRAN 77 share: lists in parentheses, controls of loops, types and lengths, declarators,
//! the members of COMMON, EQUIVALENCE, PARAMETER, IMPLICIT, SAVE and DATA, and the items of READ and PRINT
//! (ANSI X3.9-1978, sections 5, 8, 9.1, 11.10 and 12.8).
//!
//! Each is a form, which a function reads.
#![tactic(auto)]

pub mod common;
pub mod control;
pub mod data;
pub mod declarators;
pub mod items;
pub mod lists;
pub mod sees;
pub mod specifications;
pub mod types;
