//! A law of references: an element of an array has as many subscripts as the array has dimensions (ANSI X3.9-1978, section 5.3).
#![tactic(auto)]

pub mod laws;
