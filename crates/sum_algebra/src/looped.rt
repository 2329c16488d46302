//! A loop.
ghost use Rattle.std.specs.Prelude.{◌≡◌, ◌<◌, ◌≤◌, ◌+◌, length, IfOk};
ghost use Rattle.usr_graph.specs.Built.{Keeps};
ghost use Rattle.usr_graph.specs.Names.{OnlyNames, loop_named};
ghost use Rattle.usr_graph.specs.Triples.{IsIn};
ghost use Rattle.sum_algebra.specs.Rules.{IsOver, IsOverLoop, AllRead, AllWritten, LoopWrittenFirst};
ghost use Rattle.sum_algebra.specs.Tell.{LoopTells};

use hyb_base::no_memory::NoMemory;
use std::alloc::Global;
use sym_lmad::copy::copy;
use sym_lmad::sym::Sym;
use usr_graph::graph::Graph;
use usr_graph::node::{Node, NodeId};
use usr_graph::triple::Triple;

/// What some iteration reads before it writes it.
fn all_read(graph: &mut Graph, index: u32, count: Sym, body: &Triple) -> Result<NodeId, NoMemory>
    requires { IsIn graph.old body.now }
    ensures ok { IfOk result (λ id. IsOver graph.old index count (AllRead body.now index) graph.new id) }
    ensures keeps { Keeps graph.old graph.new }
    ensures few { length graph.new ≤ length graph.old + 2 }
    ensures names { OnlyNames (loop_named index count) graph.old graph.new }
{
    let body = graph.add(Node::Union(body.ro, body.rw))?;
    graph.add(Node::Recur { index, count, body })
}

/// What some iteration writes.
fn all_written(graph: &mut Graph, index: u32, count: Sym, body: &Triple) -> Result<NodeId, NoMemory>
    requires { IsIn graph.old body.now }
    ensures ok { IfOk result (λ id. IsOver graph.old index count (AllWritten body.now index) graph.new id) }
    ensures keeps { Keeps graph.old graph.new }
    ensures few { length graph.new ≤ length graph.old + 2 }
    ensures names { OnlyNames (loop_named index count) graph.old graph.new }
{
    let body = graph.add(Node::Union(body.wf, body.rw))?;
    graph.add(Node::Recur { index, count, body })
}

/// What some iteration writes first and none before it reads first.
fn written_first(
    graph: &mut Graph,
    index: u32,
    count: Sym,
    body: &Triple,
) -> Result<NodeId, NoMemory>
    requires { IsIn graph.old body.now }
    ensures ok { IfOk result (λ id. IsOver graph.old index count (LoopWrittenFirst body.now index) graph.new id) }
    ensures keeps { Keeps graph.old graph.new }
    ensures few { length graph.new ≤ length graph.old + 4 }
    ensures names { OnlyNames (loop_named index count) graph.old graph.new }
{
    let read = graph.add(Node::Union(body.ro, body.rw))?;
    let before = graph.add(Node::Below {
        index,
        limit: index,
        body: read,
    })?;
    let first = graph.add(Node::Minus(body.wf, before))?;
    graph.add(Node::Recur {
        index,
        count,
        body: first,
    })
}

/// The three sets of a loop.
fn repeat(
    alloc: Global,
    graph: &mut Graph,
    index: u32,
    count: Sym,
    body: &Triple,
) -> Result<Triple, NoMemory>
    requires { IsIn graph.old body.now }
    ensures ok { IfOk result (λ t. IsOverLoop graph.old index count body.now graph.new t) }
    ensures keeps { Keeps graph.old graph.new }
    ensures few { length graph.new ≤ length graph.old + 10 }
    ensures names { OnlyNames (loop_named index count) graph.old graph.new }
{
    let of_reads = copy(alloc, &count)?;
    let of_writes = copy(alloc, &count)?;
    let read = all_read(graph, index, of_reads, body)?;
    let written = all_written(graph, index, of_writes, body)?;
    let wf = written_first(graph, index, count, body)?;
    let ro = graph.add(Node::Minus(read, written))?;
    let rw = graph.add(Node::Minus(written, wf))?;
    Ok(Triple { ro, wf, rw })
}

/// The sets of a loop, whose index goes from 1 to a count, by those of its body. It adds at most 10 nodes; after an error
/// the graph may have gained some, and the older ones are as before.
pub fn over_loop(
    alloc: Global,
    graph: &mut Graph,
    index: u32,
    count: Sym,
    body: &Triple,
) -> Result<Triple, NoMemory>
    requires { IsIn graph.old body.now }
    ensures there { IfOk result (λ t. IsIn graph.new t) }
    ensures members { IfOk result (λ t. IsOverLoop graph.old index count body.now graph.new t) }
    ensures uses { IfOk result (λ t. LoopTells graph.old index count body.now graph.new t) }
    ensures keeps { Keeps graph.old graph.new }
    ensures few { length graph.new ≤ length graph.old + 10 }
    ensures names { OnlyNames (loop_named index count) graph.old graph.new }
{
    repeat(alloc, graph, index, count, body)
}
