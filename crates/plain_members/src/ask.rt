//! A plain program that says whether an address is a member of a node.
ghost use Rattle.std.specs.Prelude.{◌≡◌, ◌↔◌, ◌+◌, ◌<◌, ◌^◌, ℕ, ℤ, pos, length, slice_set, IfOk, IsTrue, List};
ghost use Rattle.sym_lmad.specs.Bindings.{IsReadable};
ghost use Rattle.sym_lmad.specs.Gain.{at_index};
ghost use Rattle.sym_lmad.specs.Members.{count_of};
ghost use Rattle.usr_graph.specs.declared.node.Node.{Node};
ghost use Rattle.usr_graph.specs.declared.node.Node.TheVariants as n;
ghost use Rattle.plain_members.specs.Asked.{Answers, AnswersBy, AnswersOver, Looked, opposite_of, turns_before};
ghost use Rattle.usr_graph.specs.Choice.{near_worth};
ghost use Rattle.usr_graph.specs.Members.{Holds};
ghost use Rattle.usr_graph.specs.Nodes.{ChildrenBelow};

use crate::told::Told;
use hyb_base::cells::Cells;
use hyb_base::env::Env;
use hyb_base::no_memory::NoMemory;
use hyb_base::nums::Nums;
use hyb_base::ops::Rel;
use std::alloc::Global;
use sym_lmad::each::each;
use sym_lmad::lmad::Lmad;
use sym_lmad::sym::Sym;
use sym_lmad::value;
use usr_graph::graph::Graph;
use usr_graph::node::{Cond, Node, NodeId};

/// The opposite of what is told.
fn opposite(told: Told) -> Told
    ensures { result ≡ opposite_of told }
{
    match told {
        Told::In => Told::Out,
        Told::Out => Told::In,
        Told::Open => Told::Open,
    }
}

/// Whether a relation holds between two values.
fn compare(left: i64, rel: Rel, right: i64) -> bool
    ensures { IsTrue result ↔ Holds left rel right }
{
    match rel {
        Rel::Eq => left == right,
        Rel::Ne => left != right,
        Rel::Lt => left < right,
        Rel::Le => left <= right,
        Rel::Gt => left > right,
        Rel::Ge => left >= right,
    }
}

/// Whether a relation holds between two values: open where one is missing.
fn look(left: Option<i64>, rel: Rel, right: Option<i64>) -> Told
    ensures { Looked left rel right result }
{
    match (left, right) {
        (Some(left), Some(right)) => {
            if compare(left, rel, right) {
                Told::In
            } else {
                Told::Out
            }
        }
        _ => Told::Open,
    }
}

/// A count as a number of turns: 0 where it is negative.
fn turns(count: i64) -> u64
    ensures value { result ≡ count_of count }
    ensures small { result < 2 ^ 63 }
{
    if count < 0 { 0 } else { count as u64 }
}

/// How many numbers from 1 on are below a limit.
fn turns_below(limit: i64) -> u64
    ensures value { result ≡ turns_before limit }
    ensures small { result < 2 ^ 63 }
{
    if limit <= 0 { 0 } else { (limit - 1) as u64 }
}

/// An address as a number.
fn number_of(address: u32) -> i64
    ensures { result ≡ pos address }
{
    address as i64
}

/// The number of a turn, counted from 1, as a value of an index.
fn ordinal(turn: u64) -> i64
    requires { turn + 1 < 2 ^ 63 }
    ensures { result ≡ pos (turn + 1) }
{
    (turn + 1) as i64
}

/// Sets an index; one that has no place stays without.
fn set_index(env: &mut Env, index: u32, value: i64)
    ensures { env.new ≡ at_index env.old index value }
{
    if (index as usize) < env.indices.len() {
        env.indices.set(index as usize, value);
    }
}

/// Sets an index to the number of a turn, counted from 1.
fn set_turn(env: &mut Env, index: u32, turn: u64)
    requires { turn + 1 < 2 ^ 63 }
    ensures { env.new ≡ at_index env.old index (pos (turn + 1)) }
{
    set_index(env, index, ordinal(turn));
}

/// Whether an address is one of a descriptor.
fn of_leaf<C: Cells>(
    alloc: Global,
    lmad: &Lmad,
    address: u32,
    env: &Env,
    cells: &mut C,
) -> Result<Told, NoMemory>
    requires { IsReadable env.now (C.values cells.old) (C.may_get cells.old) }
    ensures answer { (nodes : List Node) (id : ℕ) → IfOk result
        (AnswersBy (near_worth env.now (C.values cells.old)) nodes id (n.Leaf lmad.now) env.now.indices (pos address)) }
    ensures same_values { C.values cells.new ≡ C.values cells.old }
    ensures same_test { C.may_get cells.new ≡ C.may_get cells.old }
{
    let number = number_of(address);
    let mut numbers = Nums::new(alloc);
    if !each(alloc, lmad, env, cells, &mut numbers)? {
        return Ok(Told::Open);
    }
    if numbers.as_slice().contains(&number) {
        Ok(Told::In)
    } else {
        Ok(Told::Out)
    }
}

/// Whether an address is a member of a node, the bindings being as before afterwards. What is told holds under every
/// choice. It goes through the definition of members, and looks at a node as often as it is reached.
#[cycle(ask)]
pub fn ask<C: Cells>(
    alloc: Global,
    graph: &Graph,
    id: NodeId,
    address: u32,
    env: &mut Env,
    cells: &mut C,
) -> Result<Told, NoMemory>
    requires readable { IsReadable env.old (C.values cells.old) (C.may_get cells.old) }
    requires there { id < length graph.now }
    ensures answer { IfOk result
        (Answers (near_worth env.old (C.values cells.old)) graph.now id env.old.indices (pos address)) }
    ensures same_env { env.new ≡ env.old }
    ensures same_values { C.values cells.new ≡ C.values cells.old }
    ensures same_test { C.may_get cells.new ≡ C.may_get cells.old }
{
    ask_node(alloc, graph, id, graph.node(id), address, env, cells)
}

/// The same of a node that may be at a place of the graph.
#[cycle(ask)]
fn ask_node<C: Cells>(
    alloc: Global,
    graph: &Graph,
    id: NodeId,
    node: &Node,
    address: u32,
    env: &mut Env,
    cells: &mut C,
) -> Result<Told, NoMemory>
    requires readable { IsReadable env.old (C.values cells.old) (C.may_get cells.old) }
    requires there { id < length graph.now }
    requires children { ChildrenBelow id node.now }
    ensures answer { IfOk result
        (AnswersBy (near_worth env.old (C.values cells.old)) graph.now id node.now env.old.indices (pos address)) }
    ensures same_env { env.new ≡ env.old }
    ensures same_values { C.values cells.new ≡ C.values cells.old }
    ensures same_test { C.may_get cells.new ≡ C.may_get cells.old }
{
    match node {
        Node::Empty => Ok(Told::Out),
        Node::Leaf(lmad) => of_leaf(alloc, lmad, address, env, cells),
        Node::Union(first, second) => {
            of_either(alloc, graph, *first, *second, address, env, cells)
        }
        Node::Inter(first, second) => {
            of_both(alloc, graph, *first, *second, address, env, cells)
        }
        Node::Minus(first, second) => {
            of_first(alloc, graph, *first, *second, address, env, cells)
        }
        Node::Gate(cond, body) => where_holds(alloc, graph, cond, *body, address, env, cells),
        Node::Recur { index, count, body } => {
            over_count(alloc, graph, *index, count, *body, address, env, cells)
        }
        Node::Below { index, limit, body } => {
            below_limit(alloc, graph, *index, *limit, *body, address, env, cells)
        }
        Node::Site { site: _, body } => ask(alloc, graph, *body, address, env, cells),
    }
}

/// Whether an address is a member of one of two nodes.
#[cycle(ask)]
fn of_either<C: Cells>(
    alloc: Global,
    graph: &Graph,
    first: NodeId,
    second: NodeId,
    address: u32,
    env: &mut Env,
    cells: &mut C,
) -> Result<Told, NoMemory>
    requires readable { IsReadable env.old (C.values cells.old) (C.may_get cells.old) }
    requires first { first < length graph.now }
    requires second { second < length graph.now }
    ensures answer { (id : ℕ) → IfOk result
        (AnswersBy (near_worth env.old (C.values cells.old)) graph.now id (n.Union first second) env.old.indices
        (pos address)) }
    ensures same_env { env.new ≡ env.old }
    ensures same_values { C.values cells.new ≡ C.values cells.old }
    ensures same_test { C.may_get cells.new ≡ C.may_get cells.old }
{
    let known = ask(alloc, graph, first, address, env, cells)?;
    match known {
        Told::In => Ok(Told::In),
        Told::Out => ask(alloc, graph, second, address, env, cells),
        Told::Open => Ok(Told::Open),
    }
}

/// Whether an address is a member of both nodes.
#[cycle(ask)]
fn of_both<C: Cells>(
    alloc: Global,
    graph: &Graph,
    first: NodeId,
    second: NodeId,
    address: u32,
    env: &mut Env,
    cells: &mut C,
) -> Result<Told, NoMemory>
    requires readable { IsReadable env.old (C.values cells.old) (C.may_get cells.old) }
    requires first { first < length graph.now }
    requires second { second < length graph.now }
    ensures answer { (id : ℕ) → IfOk result
        (AnswersBy (near_worth env.old (C.values cells.old)) graph.now id (n.Inter first second) env.old.indices
        (pos address)) }
    ensures same_env { env.new ≡ env.old }
    ensures same_values { C.values cells.new ≡ C.values cells.old }
    ensures same_test { C.may_get cells.new ≡ C.may_get cells.old }
{
    let known = ask(alloc, graph, first, address, env, cells)?;
    match known {
        Told::In => ask(alloc, graph, second, address, env, cells),
        Told::Out => Ok(Told::Out),
        Told::Open => Ok(Told::Open),
    }
}

/// Whether an address is a member of the first node and not of the second.
#[cycle(ask)]
fn of_first<C: Cells>(
    alloc: Global,
    graph: &Graph,
    first: NodeId,
    second: NodeId,
    address: u32,
    env: &mut Env,
    cells: &mut C,
) -> Result<Told, NoMemory>
    requires readable { IsReadable env.old (C.values cells.old) (C.may_get cells.old) }
    requires first { first < length graph.now }
    requires second { second < length graph.now }
    ensures answer { (id : ℕ) → IfOk result
        (AnswersBy (near_worth env.old (C.values cells.old)) graph.now id (n.Minus first second) env.old.indices
        (pos address)) }
    ensures same_env { env.new ≡ env.old }
    ensures same_values { C.values cells.new ≡ C.values cells.old }
    ensures same_test { C.may_get cells.new ≡ C.may_get cells.old }
{
    let known = ask(alloc, graph, first, address, env, cells)?;
    match known {
        Told::In => not_of(alloc, graph, second, address, env, cells),
        Told::Out => Ok(Told::Out),
        Told::Open => Ok(Told::Open),
    }
}

/// Whether an address is no member of a node.
#[cycle(ask)]
fn not_of<C: Cells>(
    alloc: Global,
    graph: &Graph,
    id: NodeId,
    address: u32,
    env: &mut Env,
    cells: &mut C,
) -> Result<Told, NoMemory>
    requires readable { IsReadable env.old (C.values cells.old) (C.may_get cells.old) }
    requires there { id < length graph.now }
    ensures answer { IfOk result
        (λ known. Answers (near_worth env.old (C.values cells.old)) graph.now id env.old.indices (pos address)
        (opposite_of known)) }
    ensures same_env { env.new ≡ env.old }
    ensures same_values { C.values cells.new ≡ C.values cells.old }
    ensures same_test { C.may_get cells.new ≡ C.may_get cells.old }
{
    let known = ask(alloc, graph, id, address, env, cells)?;
    Ok(opposite(known))
}

/// Whether a condition holds and an address is a member of the body.
#[cycle(ask)]
fn where_holds<C: Cells>(
    alloc: Global,
    graph: &Graph,
    cond: &Cond,
    body: NodeId,
    address: u32,
    env: &mut Env,
    cells: &mut C,
) -> Result<Told, NoMemory>
    requires readable { IsReadable env.old (C.values cells.old) (C.may_get cells.old) }
    requires body { body < length graph.now }
    ensures answer { (id : ℕ) → IfOk result
        (AnswersBy (near_worth env.old (C.values cells.old)) graph.now id (n.Gate cond.now body) env.old.indices
        (pos address)) }
    ensures same_env { env.new ≡ env.old }
    ensures same_values { C.values cells.new ≡ C.values cells.old }
    ensures same_test { C.may_get cells.new ≡ C.may_get cells.old }
{
    let left = value::value(&cond.left, env, cells);
    let right = value::value(&cond.right, env, cells);
    let known = look(left, cond.rel, right);
    match known {
        Told::In => ask(alloc, graph, body, address, env, cells),
        Told::Out => Ok(Told::Out),
        Told::Open => Ok(Told::Open),
    }
}

/// Whether an address is a member of the body at some value of an index from 1 to a count.
#[cycle(ask)]
fn over_count<C: Cells>(
    alloc: Global,
    graph: &Graph,
    index: u32,
    count: &Sym,
    body: NodeId,
    address: u32,
    env: &mut Env,
    cells: &mut C,
) -> Result<Told, NoMemory>
    requires readable { IsReadable env.old (C.values cells.old) (C.may_get cells.old) }
    requires body { body < length graph.now }
    ensures answer { (id : ℕ) → IfOk result
        (AnswersBy (near_worth env.old (C.values cells.old)) graph.now id (n.Recur index count.now body)
        env.old.indices (pos address)) }
    ensures same_env { env.new ≡ env.old }
    ensures same_values { C.values cells.new ≡ C.values cells.old }
    ensures same_test { C.may_get cells.new ≡ C.may_get cells.old }
{
    let number = value::value(count, env, cells);
    match number {
        None => Ok(Told::Open),
        Some(number) => each_turn(
            alloc,
            graph,
            index,
            turns(number),
            body,
            address,
            env,
            cells,
        ),
    }
}

/// Whether an address is a member of the body at some value of an index from 1 to the value of another one less 1.
#[cycle(ask)]
fn below_limit<C: Cells>(
    alloc: Global,
    graph: &Graph,
    index: u32,
    limit: u32,
    body: NodeId,
    address: u32,
    env: &mut Env,
    cells: &mut C,
) -> Result<Told, NoMemory>
    requires readable { IsReadable env.old (C.values cells.old) (C.may_get cells.old) }
    requires body { body < length graph.now }
    ensures answer { (id : ℕ) → IfOk result
        (AnswersBy (near_worth env.old (C.values cells.old)) graph.now id (n.Below index limit body)
        env.old.indices (pos address)) }
    ensures same_env { env.new ≡ env.old }
    ensures same_values { C.values cells.new ≡ C.values cells.old }
    ensures same_test { C.may_get cells.new ≡ C.may_get cells.old }
{
    let limit = env.indices.get(limit as usize).unwrap_or(0);
    each_turn(
        alloc,
        graph,
        index,
        turns_below(limit),
        body,
        address,
        env,
        cells,
    )
}

/// Whether an address is a member of the body at some value of an index from 1 to a number of turns.
#[cycle(ask)]
fn each_turn<C: Cells>(
    alloc: Global,
    graph: &Graph,
    index: u32,
    turns: u64,
    body: NodeId,
    address: u32,
    env: &mut Env,
    cells: &mut C,
) -> Result<Told, NoMemory>
    requires readable { IsReadable env.old (C.values cells.old) (C.may_get cells.old) }
    requires body { body < length graph.now }
    requires small { turns < 2 ^ 63 }
    ensures answer { IfOk result
        (AnswersOver (near_worth env.old (C.values cells.old)) graph.now index body env.old.indices turns
        (pos address)) }
    ensures same_env { env.new ≡ env.old }
    ensures same_values { C.values cells.new ≡ C.values cells.old }
    ensures same_test { C.may_get cells.new ≡ C.may_get cells.old }
{
    for turn in 0..turns {
        let known = ask_at(alloc, graph, index, turn, body, address, env, cells)?;
        match known {
            Told::In => return Ok(Told::In),
            Told::Out => {}
            Told::Open => return Ok(Told::Open),
        }
    }
    Ok(Told::Out)
}

/// Whether an address is a member of the body at the number of a turn as the value of an index.
#[cycle(ask)]
fn ask_at<C: Cells>(
    alloc: Global,
    graph: &Graph,
    index: u32,
    turn: u64,
    body: NodeId,
    address: u32,
    env: &mut Env,
    cells: &mut C,
) -> Result<Told, NoMemory>
    requires readable { IsReadable env.old (C.values cells.old) (C.may_get cells.old) }
    requires body { body < length graph.now }
    requires small { turn + 1 < 2 ^ 63 }
    ensures answer { IfOk result
        (Answers (near_worth env.old (C.values cells.old)) graph.now body (slice_set env.old.indices index (pos (turn + 1)))
        (pos address)) }
    ensures same_env { env.new ≡ env.old }
    ensures same_values { C.values cells.new ≡ C.values cells.old }
    ensures same_test { C.may_get cells.new ≡ C.may_get cells.old }
{
    let held = env.indices.get(index as usize).unwrap_or(0);
    set_turn(env, index, turn);
    let told = ask(alloc, graph, body, address, env, cells);
    set_index(env, index, held);
    told
}
