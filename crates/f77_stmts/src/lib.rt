//! Statements of FORTRAN 77 (ANSI X3.9-1978, sections 8 to 15): the one statement that a card spells, or why it spells
//! none.
//!
//! Each row of the table of statements is a production, written down as data, which says which trees its texts have and
//! how a tree is read. No word is reserved: a text is an assignment where it can be one, and else what its first word
//! says. Proved to be what the table spells, for every row.
#![tactic(auto)]

pub mod cause;
pub mod flow;
pub mod headings;
pub mod keyword;
pub mod laws;
pub mod rows;
pub mod specifications;
pub mod statement;
pub mod stmt;
pub mod transfers;
pub mod typed;
