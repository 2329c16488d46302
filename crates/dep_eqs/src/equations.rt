//! The three equations.
ghost use Rattle.std.specs.Prelude.{◌≡◌, ◌<◌, ◌≤◌, ◌+◌, length, IfOk};
ghost use Rattle.usr_graph.specs.Built.{Keeps};
ghost use Rattle.usr_graph.specs.Names.{OnlyNames, loop_named};
ghost use Rattle.usr_graph.specs.Triples.{IsIn};
ghost use Rattle.dep_eqs.specs.Equations.{IsPairs, AreEquations, EquationsTell, EqsAreIn};

use hyb_base::no_memory::NoMemory;
use std::alloc::Global;
use sym_lmad::copy::copy;
use sym_lmad::sym::Sym;
use usr_graph::graph::Graph;
use usr_graph::node::{Node, NodeId};
use usr_graph::triple::Triple;

/// The addresses at which an iteration of a loop meets an earlier one.
#[derive(Clone, Copy, Debug, PartialEq, Eq)]
pub struct Eqs {
    /// Written by the earlier one, and read by the later one before it writes there.
    pub flow: NodeId,
    /// Read by the earlier one before it writes there, and written by the later one.
    pub anti: NodeId,
    /// Written by both.
    pub output: NodeId,
}

/// The addresses that one of two sets has in an iteration, and one of two others in a later one.
fn pairs(
    graph: &mut Graph,
    index: u32,
    count: Sym,
    earlier: (NodeId, NodeId),
    later: (NodeId, NodeId),
) -> Result<NodeId, NoMemory>
    requires earlier_0 { earlier.0 < length graph.old }
    requires earlier_1 { earlier.1 < length graph.old }
    requires later_0 { later.0 < length graph.old }
    requires later_1 { later.1 < length graph.old }
    ensures ok { IfOk result (λ id. IsPairs graph.old index count earlier later graph.new id) }
    ensures keeps { Keeps graph.old graph.new }
    ensures few { length graph.new ≤ length graph.old + 5 }
    ensures names { OnlyNames (loop_named index count) graph.old graph.new }
{
    let at_later = graph.add(Node::Union(later.0, later.1))?;
    let at_earlier = graph.add(Node::Union(earlier.0, earlier.1))?;
    let before = graph.add(Node::Below {
        index,
        limit: index,
        body: at_earlier,
    })?;
    let both = graph.add(Node::Inter(at_later, before))?;
    graph.add(Node::Recur {
        index,
        count,
        body: both,
    })
}

/// The three sets of a loop.
fn all_pairs(
    alloc: Global,
    graph: &mut Graph,
    index: u32,
    count: Sym,
    triple: &Triple,
) -> Result<Eqs, NoMemory>
    requires { IsIn graph.old triple.now }
    ensures ok { IfOk result (λ eqs. AreEquations graph.old index count triple.now graph.new eqs) }
    ensures keeps { Keeps graph.old graph.new }
    ensures few { length graph.new ≤ length graph.old + 15 }
    ensures names { OnlyNames (loop_named index count) graph.old graph.new }
{
    let of_flow = copy(alloc, &count)?;
    let of_anti = copy(alloc, &count)?;
    let read = (triple.ro, triple.rw);
    let written = (triple.wf, triple.rw);
    let flow = pairs(graph, index, of_flow, written, read)?;
    let anti = pairs(graph, index, of_anti, read, written)?;
    let output = pairs(graph, index, count, written, written)?;
    Ok(Eqs { flow, anti, output })
}

/// The addresses at which two iterations of a loop meet, whose index goes from 1 to a count, by the sets of one iteration.
/// It adds at most 15 nodes; after an error the graph may have gained some, and the older ones are as before.
pub fn equations(
    alloc: Global,
    graph: &mut Graph,
    index: u32,
    count: Sym,
    triple: &Triple,
) -> Result<Eqs, NoMemory>
    requires { IsIn graph.old triple.now }
    ensures there { IfOk result (λ eqs. EqsAreIn graph.new eqs) }
    ensures members { IfOk result (λ eqs. AreEquations graph.old index count triple.now graph.new eqs) }
    ensures uses { IfOk result (λ eqs. EquationsTell graph.old index count triple.now graph.new eqs) }
    ensures keeps { Keeps graph.old graph.new }
    ensures few { length graph.new ≤ length graph.old + 15 }
    ensures names { OnlyNames (loop_named index count) graph.old graph.new }
{
    all_pairs(alloc, graph, index, count, triple)
}
