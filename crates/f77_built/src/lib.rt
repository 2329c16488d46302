//! What is built so far: which statements, and how much storage there may be.
//!
//! A file whose names keep the rules, within all limits, is refused last by what isn't built yet (code 21).
#![tactic(auto)]

pub mod built;
mod declared;
mod entities;
pub mod laws;
mod meaning;
mod past;
