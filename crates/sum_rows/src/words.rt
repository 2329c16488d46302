//! The words of a line.
ghost use Rattle.std.specs.Prelude.{IsTrue, IfSome};
ghost use Rattle.usr_graph.specs.Nodes.{ChildrenBelow};
ghost use Rattle.usr_graph.specs.Triples.{IsIn};

use crate::spelled::Spelled;
use dep_eqs::equations::equations;
use hyb_base::no_memory::NoMemory;
use hyb_base::ops::Rel;
use sqlite_items::Boxed;
use std::alloc::Global;
use sum_algebra::gate::gated;
use sum_algebra::looped::over_loop;
use sum_algebra::sequence::then;
use sym_lmad::lmad::{Dim, Dims, Lmad};
use sym_lmad::sym::Sym;
use usr_graph::graph::Graph;
use usr_graph::leaf::{empty, unit};
use usr_graph::node::{Cond, Node, NodeId};
use usr_graph::triple::Triple;

/// A symbol under a word: none where its parts aren't there.
fn symbol_of(alloc: Global, word: &str, spelled: &mut Spelled) -> Result<Option<Sym>, NoMemory> {
    match word {
        "L" => Ok(spelled.numbers.pop().map(Sym::Lit)),
        "A" => Ok(spelled.name().map(Sym::Addr)),
        "C" => Ok(spelled.name().map(Sym::Cell)),
        "I" => Ok(spelled.name().map(Sym::Index)),
        "E" => match (spelled.name(), spelled.symbols.pop()) {
            (Some(entity), Some(place)) => Ok(Some(Sym::Elem(entity, Boxed::new(alloc, place)?))),
            _ => Ok(None),
        },
        "+" => match (spelled.symbols.pop(), spelled.symbols.pop()) {
            (Some(left), Some(right)) => {
                let left = Boxed::new(alloc, left)?;
                Ok(Some(Sym::Add(left, Boxed::new(alloc, right)?)))
            }
            _ => Ok(None),
        },
        "*" => match (spelled.numbers.pop(), spelled.symbols.pop()) {
            (Some(factor), Some(inner)) => Ok(Some(Sym::Mul(factor, Boxed::new(alloc, inner)?))),
            _ => Ok(None),
        },
        _ => Ok(None),
    }
}

/// Takes a word of a symbol: whether it is one.
fn take_symbol(alloc: Global, word: &str, spelled: &mut Spelled) -> Result<bool, NoMemory> {
    match symbol_of(alloc, word, spelled)? {
        Some(symbol) => {
            spelled.symbols.push(symbol)?;
            Ok(true)
        }
        None => Ok(false),
    }
}

/// The relation of a word.
fn relation(word: &str) -> Option<Rel> {
    match word {
        "EQ" => Some(Rel::Eq),
        "NE" => Some(Rel::Ne),
        "LT" => Some(Rel::Lt),
        "LE" => Some(Rel::Le),
        "GT" => Some(Rel::Gt),
        "GE" => Some(Rel::Ge),
        _ => None,
    }
}

/// The condition under a word.
fn cond_of(word: &str, spelled: &mut Spelled) -> Option<Cond> {
    let rel = relation(word)?;
    let left = spelled.symbols.pop()?;
    let right = spelled.symbols.pop()?;
    Some(Cond { left, rel, right })
}

/// Takes a word of a condition: whether it is one.
fn take_cond(word: &str, spelled: &mut Spelled) -> Result<bool, NoMemory> {
    match cond_of(word, spelled) {
        Some(cond) => {
            spelled.conds.push(cond)?;
            Ok(true)
        }
        None => Ok(false),
    }
}

/// The dimension under a word.
fn dim_of(word: &str, spelled: &mut Spelled) -> Option<Dim> {
    if word != "DIM" {
        return None;
    }
    let stride = spelled.numbers.pop()?;
    let count = spelled.symbols.pop()?;
    Some(Dim { stride, count })
}

/// Takes a word of a dimension: whether it is one.
fn take_dim(word: &str, spelled: &mut Spelled) -> Result<bool, NoMemory> {
    match dim_of(word, spelled) {
        Some(dim) => {
            spelled.dims.push(dim)?;
            Ok(true)
        }
        None => Ok(false),
    }
}

/// The first dimensions.
fn dims_of(alloc: Global, count: i64, spelled: &mut Spelled) -> Result<Option<Dims>, NoMemory> {
    let mut dims = Dims::new(alloc);
    for _ in 0..count {
        match spelled.dims.pop() {
            Some(dim) => dims.push(dim)?,
            None => return Ok(None),
        }
    }
    Ok(Some(dims))
}

/// The descriptor that comes first.
fn lmad_of(alloc: Global, spelled: &mut Spelled) -> Result<Option<Lmad>, NoMemory> {
    let (Some(count), Some(base)) = (spelled.numbers.pop(), spelled.symbols.pop()) else {
        return Ok(None);
    };
    match dims_of(alloc, count, spelled)? {
        Some(dims) => Ok(Some(Lmad { base, dims })),
        None => Ok(None),
    }
}

/// The node under a word that isn't a leaf.
fn node_of(word: &str, spelled: &mut Spelled) -> Option<Node> {
    match word {
        "EMPTY" => Some(Node::Empty),
        "UNION" => {
            let first = spelled.sets.pop()?;
            Some(Node::Union(first, spelled.sets.pop()?))
        }
        "INTER" => {
            let first = spelled.sets.pop()?;
            Some(Node::Inter(first, spelled.sets.pop()?))
        }
        "MINUS" => {
            let first = spelled.sets.pop()?;
            Some(Node::Minus(first, spelled.sets.pop()?))
        }
        "GATE" => {
            let cond = spelled.conds.pop()?;
            Some(Node::Gate(cond, spelled.sets.pop()?))
        }
        "RECUR" => {
            let index = spelled.name()?;
            let count = spelled.symbols.pop()?;
            let body = spelled.sets.pop()?;
            Some(Node::Recur { index, count, body })
        }
        "BELOW" => {
            let index = spelled.name()?;
            let limit = spelled.name()?;
            let body = spelled.sets.pop()?;
            Some(Node::Below { index, limit, body })
        }
        "SITE" => {
            let site = spelled.name()?;
            let body = spelled.sets.pop()?;
            Some(Node::Site { site, body })
        }
        _ => None,
    }
}

/// Whether the children of a node are among the first ones.
fn has_children_below(count: usize, node: &Node) -> bool
    ensures { IsTrue result → ChildrenBelow count node.now }
{
    match node {
        Node::Empty => true,
        Node::Leaf(_) => true,
        Node::Union(first, second) => *first < count && *second < count,
        Node::Inter(first, second) => *first < count && *second < count,
        Node::Minus(first, second) => *first < count && *second < count,
        Node::Gate(_, body) => *body < count,
        Node::Recur { body, .. } => *body < count,
        Node::Below { body, .. } => *body < count,
        Node::Site { body, .. } => *body < count,
    }
}

/// Adds a node whose children are in the graph.
fn add(graph: &mut Graph, node: Node) -> Result<Option<NodeId>, NoMemory> {
    if !has_children_below(graph.len(), &node) {
        return Ok(None);
    }
    let id = graph.add(node)?;
    Ok(Some(id))
}

/// Adds the leaf that comes first.
fn add_leaf(
    alloc: Global,
    graph: &mut Graph,
    spelled: &mut Spelled,
) -> Result<Option<NodeId>, NoMemory> {
    match lmad_of(alloc, spelled)? {
        Some(lmad) => add(graph, Node::Leaf(lmad)),
        None => Ok(None),
    }
}

/// Adds the node of one unit whose address comes first.
fn add_unit(
    alloc: Global,
    graph: &mut Graph,
    spelled: &mut Spelled,
) -> Result<Option<NodeId>, NoMemory> {
    match spelled.symbols.pop() {
        Some(address) => {
            let id = unit(alloc, graph, address)?;
            Ok(Some(id))
        }
        None => Ok(None),
    }
}

/// Adds a node without members.
fn add_empty(graph: &mut Graph) -> Result<Option<NodeId>, NoMemory> {
    let id = empty(graph)?;
    Ok(Some(id))
}

/// The set that has the number that comes first.
fn named(sets: &[NodeId], spelled: &mut Spelled) -> Option<NodeId> {
    let number = usize::try_from(spelled.numbers.pop()?).ok()?;
    sets.get(number).copied()
}

/// The set under a word: none where it is no word of a set, or its parts aren't there.
fn set_of(
    alloc: Global,
    word: &str,
    graph: &mut Graph,
    sets: &[NodeId],
    spelled: &mut Spelled,
) -> Result<Option<NodeId>, NoMemory> {
    match word {
        "N" => Ok(named(sets, spelled)),
        "LEAF" => add_leaf(alloc, graph, spelled),
        "UNIT" => add_unit(alloc, graph, spelled),
        "NOTHING" => add_empty(graph),
        _ => match node_of(word, spelled) {
            Some(node) => add(graph, node),
            None => Ok(None),
        },
    }
}

/// Takes a word of a set: whether it is one.
fn take_set(
    alloc: Global,
    word: &str,
    graph: &mut Graph,
    sets: &[NodeId],
    spelled: &mut Spelled,
) -> Result<bool, NoMemory> {
    match set_of(alloc, word, graph, sets, spelled)? {
        Some(set) => {
            spelled.sets.push(set)?;
            Ok(true)
        }
        None => Ok(false),
    }
}

/// Whether the sets of a statement are in a graph.
fn are_in(graph: &Graph, triple: &Triple) -> bool
    ensures { IsTrue result → IsIn graph.now triple.now }
{
    let count = graph.len();
    triple.ro < count && triple.wf < count && triple.rw < count
}

/// The sets of a statement that come first, where they are in the graph.
fn triple(graph: &Graph, spelled: &mut Spelled) -> Option<Triple>
    ensures { IfSome result (IsIn graph.now) }
{
    let triple = spelled.triples.pop()?;
    if are_in(graph, &triple) {
        Some(triple)
    } else {
        None
    }
}

/// The sets of a statement whose three sets come first.
fn of_sets(spelled: &mut Spelled) -> Option<Triple> {
    let ro = spelled.sets.pop()?;
    let wf = spelled.sets.pop()?;
    let rw = spelled.sets.pop()?;
    Some(Triple { ro, wf, rw })
}

/// Those of two statements, one after the other.
fn of_two(graph: &mut Graph, spelled: &mut Spelled) -> Result<Option<Triple>, NoMemory> {
    let (Some(first), Some(later)) = (triple(graph, spelled), triple(graph, spelled)) else {
        return Ok(None);
    };
    let joined = then(graph, &first, &later)?;
    Ok(Some(joined))
}

/// Those of a statement under a condition.
fn of_gate(
    alloc: Global,
    graph: &mut Graph,
    spelled: &mut Spelled,
) -> Result<Option<Triple>, NoMemory> {
    let Some(body) = triple(graph, spelled) else {
        return Ok(None);
    };
    let Some(cond) = spelled.conds.pop() else {
        return Ok(None);
    };
    let under = gated(alloc, graph, cond, &body)?;
    Ok(Some(under))
}

/// Those of a loop.
fn of_loop(
    alloc: Global,
    graph: &mut Graph,
    spelled: &mut Spelled,
) -> Result<Option<Triple>, NoMemory> {
    let Some(body) = triple(graph, spelled) else {
        return Ok(None);
    };
    let Some(index) = spelled.name() else {
        return Ok(None);
    };
    let Some(count) = spelled.symbols.pop() else {
        return Ok(None);
    };
    let all = over_loop(alloc, graph, index, count, &body)?;
    Ok(Some(all))
}

/// The sets of a statement under a word: none where it is no word of such, or its parts aren't there.
fn triple_of(
    alloc: Global,
    word: &str,
    graph: &mut Graph,
    spelled: &mut Spelled,
) -> Result<Option<Triple>, NoMemory> {
    match word {
        "SETS" => Ok(of_sets(spelled)),
        "THEN" => of_two(graph, spelled),
        "GATED" => of_gate(alloc, graph, spelled),
        "LOOP" => of_loop(alloc, graph, spelled),
        _ => Ok(None),
    }
}

/// Takes a word of the sets of a statement: whether it is one.
fn take_triple(
    alloc: Global,
    word: &str,
    graph: &mut Graph,
    spelled: &mut Spelled,
) -> Result<bool, NoMemory> {
    match triple_of(alloc, word, graph, spelled)? {
        Some(triple) => {
            spelled.triples.push(triple)?;
            Ok(true)
        }
        None => Ok(false),
    }
}

/// Takes the word of equations: whether it is it, and its parts are there.
fn take_pairs(
    alloc: Global,
    word: &str,
    graph: &mut Graph,
    spelled: &mut Spelled,
) -> Result<bool, NoMemory> {
    if word != "PAIRS" {
        return Ok(false);
    }
    let Some(body) = triple(graph, spelled) else {
        return Ok(false);
    };
    let Some(index) = spelled.name() else {
        return Ok(false);
    };
    let Some(count) = spelled.symbols.pop() else {
        return Ok(false);
    };
    let pairs = equations(alloc, graph, index, count, &body)?;
    spelled.pairs.push(pairs)?;
    Ok(true)
}

/// Takes one more word: whether it can be read.
fn take(
    alloc: Global,
    word: &str,
    graph: &mut Graph,
    sets: &[NodeId],
    spelled: &mut Spelled,
) -> Result<bool, NoMemory> {
    if let Ok(number) = word.parse::<i64>() {
        spelled.numbers.push(number)?;
        return Ok(true);
    }
    if take_symbol(alloc, word, spelled)? {
        return Ok(true);
    }
    if take_cond(word, spelled)? {
        return Ok(true);
    }
    if take_dim(word, spelled)? {
        return Ok(true);
    }
    if take_set(alloc, word, graph, sets, spelled)? {
        return Ok(true);
    }
    if take_triple(alloc, word, graph, spelled)? {
        return Ok(true);
    }
    take_pairs(alloc, word, graph, spelled)
}

/// The words of a line.
fn words<'a>(alloc: Global, line: &'a str) -> Result<Vec<&'a str>, NoMemory> {
    let mut words = Vec::new(alloc);
    for word in line.split_whitespace() {
        words.push(word)?;
    }
    Ok(words)
}

/// What the words of a line spell, over the sets that have names: none where a word can't be read.
pub fn spell(
    alloc: Global,
    line: &str,
    graph: &mut Graph,
    sets: &[NodeId],
) -> Result<Option<Spelled>, NoMemory> {
    let words = words(alloc, line)?;
    let mut spelled = Spelled::new(alloc);
    for word in words.as_slice().iter().rev() {
        if !take(alloc, word, graph, sets, &mut spelled)? {
            return Ok(None);
        }
    }
    Ok(Some(spelled))
}
