//! Shows what the front end makes as text: trees of expressions and statements, and the tables of a file.
//!
//! Each function adds to a list of bytes, without LF except where its comment says so. A tree is shown with its
//! structure, so that two different trees have different texts: every operator has brackets round it and a name of its
//! own in lower case or signs, and names are in upper case.
#![tactic(auto)]

pub mod declarations;
pub mod exprs;
pub mod initial;
pub mod items;
pub mod lists;
pub mod refusals;
pub mod statements;
pub mod tables;
