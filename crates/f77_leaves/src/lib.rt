//! What is in the statements of a unit (ANSI X3.9-1978, sections 5.3, 8, 15.2, 15.10 and 18.2).
//!
//! The literals and names of a statement, each name with what it is there; what declarations say of a name; the intrinsic
//! functions; and what a name is that a list in parentheses follows. The limits on names and operands, the rules on names, and
//! what is made of statements stand on these words.
#![tactic(auto)]

pub mod declarations;
pub mod intrinsics;
pub mod leaves;
pub mod meant;
