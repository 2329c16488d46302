//! What a row gives, and whether it is wanted.

use crate::members::add_members;
use crate::rows::Row;
use crate::spelled::{Asked, Spelled};
use crate::words::spell;
use dep_eqs::equations::Eqs;
use hyb_base::no_memory::NoMemory;
use std::alloc::Global;
use std::str;
use usr_graph::graph::Graph;
use usr_graph::node::NodeId;
use usr_graph::triple::Triple;

/// The answer for a row that can't be read.
const UNREAD: &str = "it can't be read";

/// The values of the indices: none where a word is no number.
fn values(alloc: Global, line: &[u8]) -> Result<Option<Vec<i64>>, NoMemory> {
    let Ok(line) = str::from_utf8(line) else {
        return Ok(None);
    };
    let mut values = Vec::new(alloc);
    for word in line.split_whitespace() {
        match word.parse::<i64>() {
            Ok(value) => values.push(value)?,
            Err(_) => return Ok(None),
        }
    }
    Ok(Some(values))
}

/// The one set that a line spells.
fn set(spelled: Option<Spelled>) -> Option<NodeId> {
    let mut spelled = spelled?;
    match spelled.asked()? {
        Asked::Set(id) => Some(id),
        Asked::Sets(_) => None,
        Asked::Pairs(_) => None,
    }
}

/// The set of a line that gives it a name.
fn named_set(
    alloc: Global,
    line: &[u8],
    graph: &mut Graph,
    sets: &[NodeId],
) -> Result<Option<NodeId>, NoMemory> {
    let Ok(line) = str::from_utf8(line) else {
        return Ok(None);
    };
    match line.strip_prefix("SET ") {
        Some(words) => Ok(set(spell(alloc, words, graph, sets)?)),
        None => Ok(None),
    }
}

/// The sets that have names: none where a line can't be read.
fn named_sets(
    alloc: Global,
    lines: &[Vec<u8>],
    graph: &mut Graph,
) -> Result<Option<Vec<NodeId>>, NoMemory> {
    let mut sets = Vec::new(alloc);
    for line in lines {
        match named_set(alloc, line.as_slice(), graph, sets.as_slice())? {
            Some(id) => sets.push(id)?,
            None => return Ok(None),
        }
    }
    Ok(Some(sets))
}

/// The three sets of a statement as a text.
fn sets_text(
    alloc: Global,
    graph: &Graph,
    triple: Triple,
    values: &[i64],
) -> Result<String, NoMemory> {
    let mut text = String::new(alloc);
    add_members(alloc, graph, "ro", triple.ro, values, &mut text)?;
    add_members(alloc, graph, " | wf", triple.wf, values, &mut text)?;
    add_members(alloc, graph, " | rw", triple.rw, values, &mut text)?;
    Ok(text)
}

/// The three equations as a text.
fn pairs_text(
    alloc: Global,
    graph: &Graph,
    pairs: Eqs,
    values: &[i64],
) -> Result<String, NoMemory> {
    let mut text = String::new(alloc);
    add_members(alloc, graph, "flow", pairs.flow, values, &mut text)?;
    add_members(alloc, graph, " | anti", pairs.anti, values, &mut text)?;
    add_members(alloc, graph, " | output", pairs.output, values, &mut text)?;
    Ok(text)
}

/// What is asked as a text.
fn text_of(alloc: Global, graph: &Graph, asked: Asked, values: &[i64]) -> Result<String, NoMemory> {
    match asked {
        Asked::Set(id) => {
            let mut text = String::new(alloc);
            add_members(alloc, graph, "set", id, values, &mut text)?;
            Ok(text)
        }
        Asked::Sets(triple) => sets_text(alloc, graph, triple, values),
        Asked::Pairs(pairs) => pairs_text(alloc, graph, pairs, values),
    }
}

/// What a line asks.
fn asked(spelled: Option<Spelled>) -> Option<Asked> {
    let mut spelled = spelled?;
    spelled.asked()
}

/// What a line asks over the sets that have names.
fn asked_of(
    alloc: Global,
    line: &[u8],
    graph: &mut Graph,
    sets: &[NodeId],
) -> Result<Option<Asked>, NoMemory> {
    match str::from_utf8(line) {
        Ok(line) => Ok(asked(spell(alloc, line, graph, sets)?)),
        Err(_) => Ok(None),
    }
}

/// What a row gives: none where it can't be read.
fn answer(alloc: Global, row: &Row) -> Result<Option<String>, NoMemory> {
    let Some(values) = values(alloc, &row.indices)? else {
        return Ok(None);
    };
    let mut graph = Graph::new(alloc);
    let Some(sets) = named_sets(alloc, row.sets.as_slice(), &mut graph)? else {
        return Ok(None);
    };
    let Some(asked) = asked_of(alloc, &row.asked, &mut graph, sets.as_slice())? else {
        return Ok(None);
    };
    let text = text_of(alloc, &graph, asked, values.as_slice())?;
    Ok(Some(text))
}

/// What a row gives.
pub fn given(alloc: Global, row: &Row) -> Result<String, NoMemory> {
    match answer(alloc, row)? {
        Some(text) => Ok(text),
        None => Ok(UNREAD.to_string(alloc)?),
    }
}

/// Whether what a row gives is wanted.
pub fn is_as_wanted(row: &Row, given: &String) -> bool {
    match str::from_utf8(&row.wanted) {
        Ok(wanted) => wanted.trim() == given.as_str(),
        Err(_) => false,
    }
}
