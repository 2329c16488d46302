//! What iterations of a loop touch: conflicts between them, modes of regions, right verdicts.
//!
//! The definitions are in `specs/`: of a trace the addresses that it writes, and those whose first access is a read
//! (exposed reads); of two iterations flow, anti and output pairs; of a region the first mode that applies. A book or a
//! test that answers a `Verdict` is held to `IsRight`.
#![tactic(auto)]

pub mod laws;
pub mod modes;
