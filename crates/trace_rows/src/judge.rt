//! What a row gives, and whether it is wanted.

use crate::row::Row;
use crate::sets::{address_text, members, set, size};
use crate::traces::{layout, tell, tell_all, verdict_lines};
use hyb_base::no_memory::NoMemory;
use loop_trace::Book;
use std::alloc::Global;
use std::str;

/// What a row of traces gives.
fn of_traces(alloc: Global, row: &Row, regions: &[u8]) -> Result<Option<Vec<String>>, NoMemory> {
    let Ok(regions) = str::from_utf8(regions) else {
        return Ok(None);
    };
    let Some(layout) = layout(alloc, regions)? else {
        return Ok(None);
    };
    let mut book = Book::new(alloc, &layout)?;
    for iterations in &row.lists {
        let Ok(lines) = str::from_utf8(iterations) else {
            return Ok(None);
        };
        if !tell_all(&mut book, lines)? {
            return Ok(None);
        }
    }
    if let Some(open) = &row.open {
        let Ok(words) = str::from_utf8(open) else {
            return Ok(None);
        };
        if !tell(&mut book, words)? {
            return Ok(None);
        }
    }
    let verdict = book.verdict(alloc)?;
    Ok(Some(verdict_lines(alloc, &verdict)?))
}

/// The number of books of a call such as `books 7`.
fn books(call: &[u8]) -> Option<u32> {
    let (name, count) = str::from_utf8(call).ok()?.split_once(" ")?;
    if name == "books" {
        count.parse::<u32>().ok()
    } else {
        None
    }
}

/// What a row of traces gives, of which many books are made one after another: what the last of them gives.
fn of_books(
    alloc: Global,
    row: &Row,
    regions: &[u8],
    call: &[u8],
) -> Result<Option<Vec<String>>, NoMemory> {
    let Some(count) = books(call) else {
        return Ok(None);
    };
    for _ in 1..count {
        of_traces(alloc, row, regions)?;
    }
    of_traces(alloc, row, regions)
}

/// What a row of sets gives.
fn of_sets(alloc: Global, row: &Row, call: &[u8]) -> Result<Option<Vec<String>>, NoMemory> {
    let Ok(call) = str::from_utf8(call) else {
        return Ok(None);
    };
    let mut sets = Vec::new(alloc);
    for list in &row.lists {
        let Ok(words) = str::from_utf8(list) else {
            return Ok(None);
        };
        match set(alloc, words)? {
            Some(set) => sets.push(set)?,
            None => return Ok(None),
        }
    }
    let (Some(one), Some(other)) = (sets.first(), sets.last()) else {
        return Ok(None);
    };
    let (name, number) = match call.split_once(" ") {
        Some((name, number)) => (name, number.parse::<u32>().ok()),
        None => (call, None),
    };
    let text = match number {
        Some(address) if name == "least_from" => address_text(alloc, one.least_from(address))?,
        Some(address) if name == "contains" => format!(in alloc; "{}", one.contains(address))?,
        None if name == "members" => members(alloc, one)?,
        None if name == "least" => address_text(alloc, one.least())?,
        None if name == "union" => members(alloc, &one.union(alloc, other)?)?,
        None if name == "inter" => members(alloc, &one.inter(alloc, other)?)?,
        None if name == "union_size" => format!(in alloc; "{}", size(&one.union(alloc, other)?))?,
        None if name == "minus" => members(alloc, &one.minus(alloc, other)?)?,
        _ => return Ok(None),
    };
    let mut lines = Vec::new(alloc);
    lines.push(text)?;
    Ok(Some(lines))
}

/// What a row gives, line by line: none where it can't be read.
pub fn given(alloc: Global, row: &Row) -> Result<Option<Vec<String>>, NoMemory> {
    match (&row.regions, &row.call) {
        (Some(regions), None) => of_traces(alloc, row, regions),
        (Some(regions), Some(call)) => of_books(alloc, row, regions, call),
        (None, Some(call)) => of_sets(alloc, row, call),
        (None, None) => Ok(None),
    }
}

/// Whether a line is one of those that are wanted.
fn is_one_of(line: &str, wanted: &[u8]) -> bool {
    let Ok(wanted) = str::from_utf8(wanted) else {
        return false;
    };
    for one in wanted.split(" / ") {
        if one.trim() == line {
            return true;
        }
    }
    false
}

/// Whether what a row gives is wanted.
pub fn is_as_wanted(row: &Row, given: Option<&Vec<String>>) -> bool {
    let Some(given) = given else {
        return false;
    };
    if given.len() != row.wanted.len() {
        return false;
    }
    for (line, wanted) in given.iter().zip(row.wanted.iter()) {
        if !is_one_of(line.as_str(), wanted) {
            return false;
        }
    }
    true
}
