//! Symbols, descriptors and predicates, read from files and judged: each is evaluated over the bindings and cells of its
//! row, and what comes is compared with what is wanted.
#![tactic(auto)]

mod bindings;
mod judge;
mod row;
mod spelling;
mod store;

use hyb_base::no_memory::NoMemory;
use row::Row;
use std::alloc::{AllocError, Global};
use std::{env, fs};

/// Out of memory, as the standard library says it.
fn out_of_memory(_error: NoMemory) -> AllocError {
    AllocError
}

/// Judges a row, and prints it where it differs: whether it is as wanted.
fn is_as_wanted(rt: &impl Print, alloc: Global, row: &mut Row) -> anyhow::Result<bool> {
    if let Some(line) = row.unread {
        println!(rt; "differs: {}: line {line} can't be read", row.name)?;
        return Ok(false);
    }
    let given = judge::answer(alloc, row).map_err(out_of_memory)?;
    if given.as_str() == row.wanted.as_str() {
        return Ok(true);
    }
    println!(rt;
        "differs: {}: wanted {}, given {given}",
        row.name, row.wanted
    )?;
    Ok(false)
}

/// Judges the rows of a file.
fn judge_file(rt: &impl Print, alloc: Global, name: &str, text: &str) -> anyhow::Result<()> {
    let mut rows = row::rows(alloc, text).map_err(out_of_memory)?;
    let mut differ: u64 = 0;
    for row in &mut rows {
        if !is_as_wanted(rt, alloc, row)? {
            differ = differ.saturating_add(1);
        }
    }
    println!(rt; "{name}: {} rows, {differ} differ", rows.len())?;
    Ok(())
}

fn main(rt: HostRuntime) -> anyhow::Result<()> {
    let alloc = rt.alloc();
    for name in env::args(&rt)?.skip(1) {
        let text = fs::read_to_string(&rt, name.as_str())?;
        judge_file(&rt, alloc, name.as_str(), text.as_str())?;
    }
    Ok(())
}
