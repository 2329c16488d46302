//! The addresses at which iterations of a loop meet: three equations over the sets of one iteration.
#![tactic(auto)]

pub mod equations;
