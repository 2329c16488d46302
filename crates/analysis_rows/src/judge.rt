//! What comes of a row.
use crate::bindings::{fit, have_indices};
use crate::row::{Asked, Row};
use crate::store::Store;
use hyb_base::env::Env;
use hyb_base::no_memory::NoMemory;
use hyb_base::nums::Nums;
use pdag_nodes::preds::Preds;
use std::alloc::{AllocError, Global};
use sym_lmad::each::each;
use sym_lmad::ends::ends;
use sym_lmad::lmad::Lmad;
use sym_lmad::sym::Sym;
use sym_lmad::value::value;

/// The answer for bindings that don't fit the cells, or predicates that bind an index without a place.
const UNFIT: &str = "unfit";

/// The worth of a symbol, and the reads.
fn worth(alloc: Global, symbol: &Sym, env: &Env, store: &mut Store) -> Result<String, AllocError> {
    if !fit(env, store.nums.len()) {
        return UNFIT.to_string(alloc);
    }
    let before = store.reads;
    let worth = value(symbol, env, store);
    let reads = store.reads.saturating_sub(before);
    match worth {
        Some(worth) => format!(in alloc; "{worth} {reads}"),
        None => format!(in alloc; "none {reads}"),
    }
}

/// Numbers, each after a blank.
fn add_numbers(numbers: &Nums, into: &mut String) -> Result<(), AllocError> {
    for number in numbers.as_slice() {
        into.push(' ')?;
        let text = format!(in *into.allocator(); "{number}")?;
        into.push_str(text.as_str())?;
    }
    Ok(())
}

/// The ends and the members of a descriptor, and the reads for both.
fn members(alloc: Global, lmad: &Lmad, env: &Env, store: &mut Store) -> Result<String, NoMemory> {
    if !fit(env, store.nums.len()) {
        return Ok(UNFIT.to_string(alloc)?);
    }
    let first = store.reads;
    let found = ends(lmad, env, store);
    let second = store.reads;
    let mut numbers = Nums::new(alloc);
    let all = each(alloc, lmad, env, store, &mut numbers)?;
    let third = store.reads;
    let mut text = match found {
        Some((low, high)) => format!(in alloc; "{low} {high} : {all}")?,
        None => format!(in alloc; "none : {all}")?,
    };
    add_numbers(&numbers, &mut text)?;
    let reads = format!(in alloc;
        " : {} {}",
        second.saturating_sub(first),
        third.saturating_sub(second)
    )?;
    text.push_str(reads.as_str())?;
    Ok(text)
}

/// Whether the last predicate holds, and the reads.
fn truth(
    alloc: Global,
    preds: &Preds,
    env: &mut Env,
    store: &mut Store,
) -> Result<String, AllocError> {
    if !fit(env, store.nums.len()) {
        return UNFIT.to_string(alloc);
    }
    if !have_indices(preds, env.indices.len()) {
        return UNFIT.to_string(alloc);
    }
    let Some(last) = preds.len().checked_sub(1) else {
        return UNFIT.to_string(alloc);
    };
    let indices = env.indices.as_slice().to_vec(alloc)?;
    let before = store.reads;
    let holds = preds.eval(last, env, store);
    let reads = store.reads.saturating_sub(before);
    if env.indices.as_slice() != indices.as_slice() {
        return "the indices changed".to_string(alloc);
    }
    format!(in alloc; "{holds} {reads}")
}

/// The answer of a row.
pub fn answer(alloc: Global, row: &mut Row) -> Result<String, NoMemory> {
    let mut nums = Nums::new(alloc);
    for number in row.cells.as_slice() {
        nums.push(*number)?;
    }
    let mut store = Store {
        nums,
        reads: row.reads,
    };
    match &row.asked {
        Asked::Nothing => Ok("nothing is asked".to_string(alloc)?),
        Asked::Worth(symbol) => Ok(worth(alloc, symbol, &row.env, &mut store)?),
        Asked::Members(lmad) => members(alloc, lmad, &row.env, &mut store),
        Asked::Truth(preds) => Ok(truth(alloc, preds, &mut row.env, &mut store)?),
    }
}
