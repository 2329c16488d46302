//! Where constants are due (ANSI X3.9-1978, sections 5.1.1, 8.2, 8.4.2, 8.5, 8.6 and 9.1).
//!
//! What a unit says of its names goes into tables, so that a name is found in constant time. Then each statement is looked at by
//! what the tables tell of the whole unit.
#![tactic(auto)]

mod due;
pub mod lacking;
mod makeup;
pub mod starts;
pub mod unit_facts;
