//! The input of READ and the line of PRINT (ANSI X3.9-1978, section 12.8).
#![tactic(auto)]

pub mod input;
pub mod line;
mod number;
