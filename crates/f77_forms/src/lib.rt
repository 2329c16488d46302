//! Productions of the grammar of FORTRAN 77's statements, as data: the forms of which the rows of its table are made
//! (ANSI X3.9-1978, sections 3 to 15).
//!
//! A form says which trees its texts have, and how a tree is read from the front of a text. Here are its definition, the
//! readers of its smallest parts and of lists, and the laws that join what is spelled with what is read.
#![tactic(auto)]

pub mod depth;
pub mod leaves;
pub mod list;
