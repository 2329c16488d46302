//! The sets of a statement.

use crate::node::NodeId;
use hyb_base::list::List;

/// The addresses that a statement reads and never writes, those that it writes before any read, and those that it reads
/// before it writes them.
#[derive(Clone, Copy, Debug, PartialEq, Eq)]
pub struct Triple {
    /// Read only.
    pub ro: NodeId,
    /// Written first.
    pub wf: NodeId,
    /// Read and then written.
    pub rw: NodeId,
}

/// The sets of each entity that a statement names, by the entity's number.
pub type Sums = List<(u32, Triple)>;
