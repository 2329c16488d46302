//! Nodes that have no child.
ghost use Rattle.std.specs.Prelude.{◌≤◌, ◌+◌, length, IfOk};
ghost use Rattle.usr_graph.specs.Built.{Keeps};
ghost use Rattle.usr_graph.specs.Leaf.{IsNothing, IsUnit};
ghost use Rattle.usr_graph.specs.Names.{OnlyNames, nothing_named, symbol_named};

use crate::graph::Graph;
use crate::node::{Node, NodeId};
use hyb_base::no_memory::NoMemory;
use std::alloc::Global;
use sym_lmad::lmad::{Dims, Lmad};
use sym_lmad::sym::Sym;

/// A node without members.
pub fn empty(graph: &mut Graph) -> Result<NodeId, NoMemory>
    ensures keeps { Keeps graph.old graph.new }
    ensures members { IfOk result (λ id. IsNothing graph.new id) }
    ensures few { length graph.new ≤ length graph.old + 1 }
    ensures names { OnlyNames nothing_named graph.old graph.new }
{
    graph.add(Node::Empty)
}

/// A node of the one address that a symbol is worth.
#[tactic(auto, using(crate::proofs::Leaves::unit_is, crate::proofs::Leaves::unit_names))]
pub fn unit(alloc: Global, graph: &mut Graph, address: Sym) -> Result<NodeId, NoMemory>
    ensures keeps { Keeps graph.old graph.new }
    ensures members { IfOk result (λ id. IsUnit address graph.new id) }
    ensures few { length graph.new ≤ length graph.old + 1 }
    ensures names { OnlyNames (symbol_named address) graph.old graph.new }
{
    graph.add(Node::Leaf(Lmad {
        base: address,
        dims: Dims::new(alloc),
    }))
}
