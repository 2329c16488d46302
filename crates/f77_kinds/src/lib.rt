//! Kinds of operands, and numbers of subscripts and arguments (ANSI X3.9-1978, sections 5.3, 5.6, 5.7.1, 6, 8 to 12 and 15.10).
//!
//! The tables of a unit's declarations tell what each name is. A tree is walked once: what is found in an expression is what it
//! is, its kind, and which rules are broken in it.
#![tactic(auto)]

pub mod breach;
pub mod forms;
pub mod found;
mod items;
mod kinds;
pub mod kinds_break;
mod letters;
mod parts;
mod refused;
mod statements;
