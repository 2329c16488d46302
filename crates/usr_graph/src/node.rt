//! The nodes of the graph.

use hyb_base::ops::Rel;
use sym_lmad::lmad::Lmad;
use sym_lmad::sym::Sym;

/// The number of a node in its graph, counted from 0.
pub type NodeId = usize;

/// A relation between two symbols.
#[derive(Drop)]
pub struct Cond {
    /// The left side.
    pub left: Sym,
    /// The relation.
    pub rel: Rel,
    /// The right side.
    pub right: Sym,
}

/// A set of addresses at each value of the indices. Its children are earlier nodes of the same graph.
#[derive(Drop)]
pub enum Node {
    /// No address.
    Empty,
    /// The addresses of a descriptor.
    Leaf(Lmad),
    /// The addresses of either child.
    Union(NodeId, NodeId),
    /// The addresses of both children.
    Inter(NodeId, NodeId),
    /// The addresses of the first child that aren't of the second.
    Minus(NodeId, NodeId),
    /// The addresses of the child where the condition holds, and none where it doesn't.
    Gate(Cond, NodeId),
    /// The addresses that the body has at some value of the index from 1 to the count.
    Recur {
        /// The index that is bound.
        index: u32,
        /// The greatest value of the index.
        count: Sym,
        /// The node whose addresses are joined.
        body: NodeId,
    },
    /// The addresses that the body has at some value of the index from 1 to the value of `limit` less 1. The value of
    /// `limit` is taken before the index is bound, so both may be one index.
    Below {
        /// The index that is bound.
        index: u32,
        /// The index whose value is the limit.
        limit: u32,
        /// The node whose addresses are joined.
        body: NodeId,
    },
    /// The addresses of the body, which a call site brings in.
    Site {
        /// The number of the call site.
        site: u32,
        /// The node that is brought in.
        body: NodeId,
    },
}
