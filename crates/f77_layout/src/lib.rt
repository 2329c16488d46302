//! Where the entities of a file are in storage (ANSI X3.9-1978, sections 2.13, 5.1.2, 5.2.5 and 17.1.1).
//!
//! Without COMMON and EQUIVALENCE each stored entity stands where those before it end, and is a region of its own. Dummy
//! arguments and constants take no storage, and stay as they are.
#![tactic(auto)]

pub mod laws;
pub mod layout;
mod placing;
pub mod units;
