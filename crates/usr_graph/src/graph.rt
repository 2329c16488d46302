//! The graph.
ghost use Rattle.std.specs.Prelude.{◌≡◌, ◌<◌, ◌≤◌, ◌+◌, ◌==◌, [], ◌∷◌, ◌++◌, length, slice_get, Some, IfOk, OnOk, OnErr};

use crate::node::{Node, NodeId};
use hyb_base::no_memory::NoMemory;
use std::alloc::Global;
use std::marker::Model;

/// A list of nodes, each of which has its children before it.
#[derive(Drop)]
pub struct Graph {
    nodes: Vec<Node>,
}

impl Model for Graph {
    ghost use Rattle.std.specs.Prelude.{List};
    ghost use Rattle.usr_graph.specs.declared.node.Node.{Node};
    ghost use Rattle.usr_graph.specs.Nodes.{HaveEarlierChildren};
    ghost use Rattle.sym_lmad.specs.contracts.sym.Sym as s;
    ghost use Rattle.std.specs.Coded.{codes};

    ghost Value = { List Node };

    ghost coded = { Prim.hlevel (codes, s.the_row.coded) };

    ghost view = { λ g. g.nodes.items };

    ghost invariant = { λ g. HaveEarlierChildren g.nodes.items };
}

impl Graph {
    ghost use Rattle.usr_graph.specs.Nodes.{ChildrenBelow};
    ghost use Rattle.usr_graph.specs.Built.{Keeps, IsAdded, IsNodeOf};
    ghost use Rattle.usr_graph.specs.Names.{OnlyNames, node_named};

    /// No node. It takes no memory.
    pub fn new(alloc: Global) -> Graph
        ensures { result ≡ [] }
    {
        Graph {
            nodes: Vec::new(alloc),
        }
    }

    /// Adds a node, whose children are in the graph, and gives its number. Older nodes stay as they are, with their numbers and
    /// members.
    /// After an error the graph is as before.
    #[tactic(auto, using(crate::proofs::Places::earlier_push, crate::proofs::Graphs::push_keeps, crate::proofs::Graphs::push_adds, crate::proofs::Naming::push_names))]
    pub fn add(&mut self, node: Node) -> Result<NodeId, NoMemory>
        requires { ChildrenBelow (length self.old) node }
        ensures ok { OnOk result (self.new ≡ self.old ++ node ∷ []) }
        ensures number { IfOk result (λ id. id ≡ length self.old) }
        ensures err { OnErr result (self.new ≡ self.old) }
        ensures keeps { Keeps self.old self.new }
        ensures few { length self.new ≤ length self.old + 1 }
        ensures added { IfOk result (λ id. IsAdded self.old node self.new id) }
        ensures names { OnlyNames (node_named node) self.old self.new }
    {
        let id = self.nodes.len();
        self.nodes.push(node)?;
        Ok(id)
    }

    /// The number of nodes.
    pub fn len(&self) -> usize
        ensures { result ≡ length self.now }
    {
        self.nodes.len()
    }

    /// Whether there is none.
    pub fn is_empty(&self) -> bool
        ensures { result ≡ (length self.now == 0) }
    {
        self.nodes.is_empty()
    }

    /// A node of the graph. Its children have smaller numbers, and its members are what theirs make of it.
    #[tactic(auto, using(crate::proofs::Places::children_are, crate::proofs::Graphs::node_is))]
    pub fn node(&self, id: NodeId) -> &Node
        requires { id < length self.now }
        ensures value { slice_get self.now id ≡ Some result.now }
        ensures children { ChildrenBelow id result.now }
        ensures members { IsNodeOf self.now id result.now }
    {
        &self.nodes[id]
    }
}
