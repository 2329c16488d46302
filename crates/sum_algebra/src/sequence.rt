//! Statements one after another.
ghost use Rattle.std.specs.Prelude.{◌≤◌, ◌+◌, length, IfOk};
ghost use Rattle.usr_graph.specs.Built.{Keeps};
ghost use Rattle.usr_graph.specs.Names.{OnlyNames, nothing_named};
ghost use Rattle.usr_graph.specs.Triples.{IsIn};
ghost use Rattle.sum_algebra.specs.Rules.{IsReadOnly, IsWrittenFirst, IsReadThenWritten, IsThen};
ghost use Rattle.sum_algebra.specs.Tell.{ThenTells};

use hyb_base::no_memory::NoMemory;
use usr_graph::graph::Graph;
use usr_graph::node::{Node, NodeId};
use usr_graph::triple::Triple;

/// What one of both reads and none writes.
fn read_only(graph: &mut Graph, first: &Triple, later: &Triple) -> Result<NodeId, NoMemory>
    requires first { IsIn graph.old first.now }
    requires later { IsIn graph.old later.now }
    ensures ok { IfOk result (λ id. IsReadOnly graph.old first.now later.now graph.new id) }
    ensures keeps { Keeps graph.old graph.new }
    ensures few { length graph.new ≤ length graph.old + 5 }
    ensures names { OnlyNames nothing_named graph.old graph.new }
{
    let written_later = graph.add(Node::Union(later.wf, later.rw))?;
    let of_first = graph.add(Node::Minus(first.ro, written_later))?;
    let written_before = graph.add(Node::Union(first.wf, first.rw))?;
    let of_later = graph.add(Node::Minus(later.ro, written_before))?;
    graph.add(Node::Union(of_first, of_later))
}

/// What the first one writes first, or the later one where the first one doesn't read.
fn written_first(graph: &mut Graph, first: &Triple, later: &Triple) -> Result<NodeId, NoMemory>
    requires first { IsIn graph.old first.now }
    requires later { IsIn graph.old later.now }
    ensures ok { IfOk result (λ id. IsWrittenFirst graph.old first.now later.now graph.new id) }
    ensures keeps { Keeps graph.old graph.new }
    ensures few { length graph.new ≤ length graph.old + 3 }
    ensures names { OnlyNames nothing_named graph.old graph.new }
{
    let read = graph.add(Node::Union(first.ro, first.rw))?;
    let of_later = graph.add(Node::Minus(later.wf, read))?;
    graph.add(Node::Union(first.wf, of_later))
}

/// What is read before it is written.
fn read_then_written(graph: &mut Graph, first: &Triple, later: &Triple) -> Result<NodeId, NoMemory>
    requires first { IsIn graph.old first.now }
    requires later { IsIn graph.old later.now }
    ensures ok { IfOk result (λ id. IsReadThenWritten graph.old first.now later.now graph.new id) }
    ensures keeps { Keeps graph.old graph.new }
    ensures few { length graph.new ≤ length graph.old + 4 }
    ensures names { OnlyNames nothing_named graph.old graph.new }
{
    let of_later = graph.add(Node::Minus(later.rw, first.wf))?;
    let of_both = graph.add(Node::Inter(first.ro, later.wf))?;
    let either = graph.add(Node::Union(of_later, of_both))?;
    graph.add(Node::Union(first.rw, either))
}

/// The three sets of two statements, one after another.
fn sequence(graph: &mut Graph, first: &Triple, later: &Triple) -> Result<Triple, NoMemory>
    requires first { IsIn graph.old first.now }
    requires later { IsIn graph.old later.now }
    ensures ok { IfOk result (λ t. IsThen graph.old first.now later.now graph.new t) }
    ensures keeps { Keeps graph.old graph.new }
    ensures few { length graph.new ≤ length graph.old + 12 }
    ensures names { OnlyNames nothing_named graph.old graph.new }
{
    let ro = read_only(graph, first, later)?;
    let wf = written_first(graph, first, later)?;
    let rw = read_then_written(graph, first, later)?;
    Ok(Triple { ro, wf, rw })
}

/// The sets of two statements, one after another. It adds at most 12 nodes; after an error the graph may have gained
/// some, and the older ones are as before.
pub fn then(graph: &mut Graph, first: &Triple, later: &Triple) -> Result<Triple, NoMemory>
    requires first { IsIn graph.old first.now }
    requires later { IsIn graph.old later.now }
    ensures there { IfOk result (λ t. IsIn graph.new t) }
    ensures members { IfOk result (λ t. IsThen graph.old first.now later.now graph.new t) }
    ensures uses { IfOk result (λ t. ThenTells graph.old first.now later.now graph.new t) }
    ensures keeps { Keeps graph.old graph.new }
    ensures few { length graph.new ≤ length graph.old + 12 }
    ensures names { OnlyNames nothing_named graph.old graph.new }
{
    sequence(graph, first, later)
}
