//! How many cells entities take, and where the elements of arrays are in them (ANSI X3.9-1978, sections 5.1.2, 5.2.5 and 5.4).
//!
//! Numbers are of 128 bits and are never wrapped: from 2^64 on each counts as 2^64.
#![tactic(auto)]

mod capped;
pub mod laws;
pub mod sizes;
