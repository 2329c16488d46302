//! A plain program over the graph of address sets: whether an address is a member of a node, by the definition of members.
#![tactic(auto)]

pub mod ask;
pub mod told;
