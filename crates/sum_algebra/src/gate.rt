//! A statement under a condition.
ghost use Rattle.std.specs.Prelude.{◌≡◌, ◌<◌, ◌≤◌, ◌+◌, length, IfOk};
ghost use Rattle.usr_graph.specs.Built.{Keeps};
ghost use Rattle.usr_graph.specs.Names.{OnlyNames, cond_named};
ghost use Rattle.usr_graph.specs.Triples.{IsIn};
ghost use Rattle.sum_algebra.specs.Rules.{IsGate, IsGated};
ghost use Rattle.sum_algebra.specs.Tell.{GatedTells};

use hyb_base::no_memory::NoMemory;
use std::alloc::Global;
use usr_graph::copy::copy_cond;
use usr_graph::graph::Graph;
use usr_graph::node::{Cond, Node, NodeId};
use usr_graph::triple::Triple;

/// One set where a condition holds.
fn gate(graph: &mut Graph, cond: Cond, body: NodeId) -> Result<NodeId, NoMemory>
    requires { body < length graph.old }
    ensures ok { IfOk result (λ id. IsGate graph.old cond body graph.new id) }
    ensures keeps { Keeps graph.old graph.new }
    ensures few { length graph.new ≤ length graph.old + 1 }
    ensures names { OnlyNames (cond_named cond) graph.old graph.new }
{
    graph.add(Node::Gate(cond, body))
}

/// The three sets where a condition holds.
fn gates(alloc: Global, graph: &mut Graph, cond: Cond, body: &Triple) -> Result<Triple, NoMemory>
    requires { IsIn graph.old body.now }
    ensures ok { IfOk result (λ t. IsGated graph.old cond body.now graph.new t) }
    ensures keeps { Keeps graph.old graph.new }
    ensures few { length graph.new ≤ length graph.old + 3 }
    ensures names { OnlyNames (cond_named cond) graph.old graph.new }
{
    let of_ro = copy_cond(alloc, &cond)?;
    let of_wf = copy_cond(alloc, &cond)?;
    let ro = gate(graph, of_ro, body.ro)?;
    let wf = gate(graph, of_wf, body.wf)?;
    let rw = gate(graph, cond, body.rw)?;
    Ok(Triple { ro, wf, rw })
}

/// The sets of a statement under a condition. It adds at most 3 nodes; after an error the graph may have gained some, and
/// the older ones are as before.
pub fn gated(
    alloc: Global,
    graph: &mut Graph,
    cond: Cond,
    body: &Triple,
) -> Result<Triple, NoMemory>
    requires { IsIn graph.old body.now }
    ensures there { IfOk result (λ t. IsIn graph.new t) }
    ensures members { IfOk result (λ t. IsGated graph.old cond body.now graph.new t) }
    ensures uses { IfOk result (λ t. GatedTells graph.old cond body.now graph.new t) }
    ensures keeps { Keeps graph.old graph.new }
    ensures few { length graph.new ≤ length graph.old + 3 }
    ensures names { OnlyNames (cond_named cond) graph.old graph.new }
{
    gates(alloc, graph, cond, body)
}
