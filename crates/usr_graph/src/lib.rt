//! The graph of sets of addresses that summaries are made of: its nodes and their members.
#![tactic(auto)]

pub mod copy;
pub mod graph;
pub mod laws;
pub mod leaf;
pub mod node;
pub mod triple;
