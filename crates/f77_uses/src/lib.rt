//! What a unit declares and uses its names as (ANSI X3.9-1978, sections 4.1.2, 8, 11.10.5 and 18.2).
//!
//! The declarations of a unit go into one table and its uses into another, each with the first that there is for a name, so
//! that a name is found in constant time. Then each statement is looked at by what the tables tell of the whole unit.
#![tactic(auto)]

pub mod breaks;
pub mod copies;
mod doubles;
mod facts;
pub mod firsts;
pub mod known_names;
pub mod letters;
mod meaning;
pub mod names;
pub mod reals;
mod running;
pub mod tables;
pub mod unit_tables;
pub mod use_table;
pub mod uses;
