//! Rows of a file: bindings, cells, what is asked over them, and the answer that is wanted.
//!
//! By the first byte of a line:
//!
//! - `@` and a name begins a row; `#` is a remark, and an empty line is nothing.
//! - `c` the values of the cells from address 0 on, `s` the start and the length of each region in turn, `r` the region of
//!   each entity in turn, -1 where it has none, `i` the values of the indices. A line adds to what earlier ones say.
//! - `b` what the next entity is bound to: `b A` and an address, or `b V` and a value.
//! - `q` the number of reads so far, 0 where it isn't said.
//! - `v` and a symbol asks what it is worth; `= v n` is the value, or `none`, and the number of reads.
//! - `d` and a symbol is the base of a descriptor, each `x` a dimension, its stride and its count;
//!   `= low high : true m .. : n n` or `= none : false : n n` gives its ends, what `each` answers with the members that
//!   it adds, and the reads of both.
//! - `p` and a predicate is the next one of the row; `= true n` or `= false n` is whether the last one holds, and the
//!   number of reads.

use crate::spelling;
use hyb_base::env::{Base, Bases, Env};
use hyb_base::no_memory::NoMemory;
use hyb_base::nums::Nums;
use pdag_nodes::preds::Preds;
use std::alloc::{AllocError, Global};
use sym_lmad::lmad::{Dim, Dims, Lmad};
use sym_lmad::sym::Sym;

/// What a row asks.
#[derive(Drop)]
pub enum Asked {
    /// Nothing.
    Nothing,
    /// What a symbol is worth.
    Worth(Sym),
    /// The ends and the members of a descriptor.
    Members(Lmad),
    /// Whether the last predicate holds.
    Truth(Preds),
}

/// A row.
#[derive(Drop)]
pub struct Row {
    /// What it shows.
    pub name: String,
    /// The bindings.
    pub env: Env,
    /// The values of the cells.
    pub cells: Nums,
    /// The number of reads before.
    pub reads: u64,
    /// What is asked.
    pub asked: Asked,
    /// The answer that is wanted.
    pub wanted: String,
    /// The first line of the file that can't be read, counted from 1.
    pub unread: Option<usize>,
}

/// A row of a name, of which nothing else is known.
fn named(alloc: Global, name: &str) -> Result<Row, NoMemory> {
    Ok(Row {
        name: name.trim().to_string(alloc)?,
        env: Env {
            bases: Bases::new(alloc),
            regions: Nums::new(alloc),
            spans: Nums::new(alloc),
            indices: Nums::new(alloc),
        },
        cells: Nums::new(alloc),
        reads: 0,
        asked: Asked::Nothing,
        wanted: String::new(alloc),
        unread: None,
    })
}

/// Adds the numbers of a line to a list: whether the line can be read.
fn add_numbers(alloc: Global, line: &str, into: &mut Nums) -> Result<bool, NoMemory> {
    let Some(numbers) = spelling::numbers(alloc, line)? else {
        return Ok(false);
    };
    for number in numbers.as_slice() {
        into.push(*number)?;
    }
    Ok(true)
}

/// What a line binds an entity to.
fn base(line: &str) -> Option<Base> {
    let mut words = line.split_whitespace();
    let kind = words.next()?;
    let number = words.next()?.parse::<i64>().ok()?;
    if words.next().is_some() {
        return None;
    }
    match kind {
        "A" => Some(Base::At(u32::try_from(number).ok()?)),
        "V" => Some(Base::Value(number)),
        _ => None,
    }
}

/// Takes what the next entity is bound to.
fn take_base(line: &str, row: &mut Row) -> Result<bool, NoMemory> {
    match base(line) {
        Some(base) => {
            row.env.bases.push(base)?;
            Ok(true)
        }
        None => Ok(false),
    }
}

/// Takes the number of reads before.
fn take_reads(line: &str, row: &mut Row) -> bool {
    match line.trim().parse::<u64>() {
        Ok(reads) => {
            row.reads = reads;
            true
        }
        Err(_) => false,
    }
}

/// Takes the symbol that is asked for.
fn take_symbol(alloc: Global, line: &str, row: &mut Row) -> Result<bool, NoMemory> {
    match spelling::symbol(alloc, line)? {
        Some(symbol) => {
            row.asked = Asked::Worth(symbol);
            Ok(true)
        }
        None => Ok(false),
    }
}

/// Takes the base of the descriptor that is asked for.
fn take_lmad(alloc: Global, line: &str, row: &mut Row) -> Result<bool, NoMemory> {
    match spelling::symbol(alloc, line)? {
        Some(base) => {
            row.asked = Asked::Members(Lmad {
                base,
                dims: Dims::new(alloc),
            });
            Ok(true)
        }
        None => Ok(false),
    }
}

/// Takes a dimension of the descriptor.
fn take_dim(alloc: Global, line: &str, row: &mut Row) -> Result<bool, NoMemory> {
    let Some((stride, count)) = spelling::dimension(alloc, line)? else {
        return Ok(false);
    };
    match &mut row.asked {
        Asked::Members(lmad) => {
            lmad.dims.push(Dim { stride, count })?;
            Ok(true)
        }
        Asked::Nothing => Ok(false),
        Asked::Worth(_) => Ok(false),
        Asked::Truth(_) => Ok(false),
    }
}

/// Takes the next predicate.
fn take_pred(alloc: Global, line: &str, row: &mut Row) -> Result<bool, NoMemory> {
    let Some(pred) = spelling::pred(alloc, line)? else {
        return Ok(false);
    };
    match &mut row.asked {
        Asked::Truth(preds) => spelling::add(preds, pred),
        Asked::Nothing => {
            let mut preds = Preds::new(alloc);
            let added = spelling::add(&mut preds, pred)?;
            row.asked = Asked::Truth(preds);
            Ok(added)
        }
        Asked::Worth(_) => Ok(false),
        Asked::Members(_) => Ok(false),
    }
}

/// Takes the answer that is wanted: a row has one.
fn take_wanted(line: &str, row: &mut Row) -> Result<bool, AllocError> {
    let wanted = line.trim();
    if wanted.is_empty() || !row.wanted.is_empty() {
        return Ok(false);
    }
    row.wanted.push_str(wanted)?;
    Ok(true)
}

/// Takes a line of a row: whether it can be read.
fn take(alloc: Global, line: &str, row: &mut Row) -> Result<bool, NoMemory> {
    if line.trim().is_empty() || line.starts_with('#') {
        return Ok(true);
    }
    if let Some(rest) = line.strip_prefix('=') {
        return Ok(take_wanted(rest, row)?);
    }
    let Some((kind, rest)) = line.split_once(' ') else {
        return Ok(false);
    };
    match kind {
        "c" => add_numbers(alloc, rest, &mut row.cells),
        "s" => add_numbers(alloc, rest, &mut row.env.spans),
        "r" => add_numbers(alloc, rest, &mut row.env.regions),
        "i" => add_numbers(alloc, rest, &mut row.env.indices),
        "b" => take_base(rest, row),
        "q" => Ok(take_reads(rest, row)),
        "v" => take_symbol(alloc, rest, row),
        "d" => take_lmad(alloc, rest, row),
        "x" => take_dim(alloc, rest, row),
        "p" => take_pred(alloc, rest, row),
        _ => Ok(false),
    }
}

/// Whether a line is one before the first row that says nothing.
fn is_silent(line: &str) -> bool {
    line.trim().is_empty() || line.starts_with('#')
}

/// Marks a row without a wanted answer as one that can't be read at the line after it.
fn close(rows: &mut Vec<Row>, line: usize) {
    if let Some(row) = rows.last_mut() {
        if row.wanted.is_empty() && row.unread.is_none() {
            row.unread = Some(line);
        }
    }
}

/// Adds a line to the last row. One before the first row that says something begins a row that can't be read.
fn add(alloc: Global, line: &str, number: usize, rows: &mut Vec<Row>) -> Result<(), NoMemory> {
    match rows.last_mut() {
        Some(row) => {
            if !take(alloc, line, row)? && row.unread.is_none() {
                row.unread = Some(number);
            }
        }
        None => {
            if !is_silent(line) {
                let mut row = named(alloc, "before the first row")?;
                row.unread = Some(number);
                rows.push(row)?;
            }
        }
    }
    Ok(())
}

/// The rows of a file. Each line that can't be read, and each row without a wanted answer, leaves a mark.
pub fn rows(alloc: Global, text: &str) -> Result<Vec<Row>, NoMemory> {
    let mut rows: Vec<Row> = Vec::new(alloc);
    let mut number: usize = 0;
    for line in text.lines() {
        number = number.saturating_add(1);
        match line.strip_prefix('@') {
            Some(name) => {
                close(&mut rows, number);
                rows.push(named(alloc, name)?)?;
            }
            None => add(alloc, line, number, &mut rows)?,
        }
    }
    close(&mut rows, number.saturating_add(1));
    if rows.is_empty() {
        let mut row = named(alloc, "no row")?;
        row.unread = Some(number);
        rows.push(row)?;
    }
    Ok(rows)
}
