//! The rows of a file.

use row_lines::line::Line;
use row_lines::lines;
use row_lines::mark::Mark;
use std::alloc::{AllocError, Global};

/// A row.
#[derive(Drop)]
pub struct Row {
    /// The number of its first line in the file.
    pub number: u64,
    /// Its name.
    pub name: Vec<u8>,
    /// The values of the indices.
    pub indices: Vec<u8>,
    /// The sets that have names, each in a line of its own.
    pub sets: Vec<Vec<u8>>,
    /// What is asked.
    pub asked: Vec<u8>,
    /// What is wanted.
    pub wanted: Vec<u8>,
}

/// The rows of a file, and the numbers of the lines that can't be read.
#[derive(Drop)]
pub struct Rows {
    /// The rows, in their order.
    pub rows: Vec<Row>,
    /// The lines that can't be read.
    pub unreadable: Vec<u64>,
}

/// Puts a text where there is none. Whether there was none.
fn put(place: &mut Vec<u8>, text: Vec<u8>) -> bool {
    let first = place.is_empty();
    *place = text;
    first
}

/// Takes a line that isn't a name. Whether it can be read.
fn take_part(row: &mut Row, mark: Mark, text: Vec<u8>) -> Result<bool, AllocError> {
    match mark {
        Mark::Input => Ok(put(&mut row.indices, text)),
        Mark::Command => Ok(put(&mut row.asked, text)),
        Mark::Printed => Ok(put(&mut row.wanted, text)),
        Mark::Source => {
            row.sets.push(text)?;
            Ok(true)
        }
        Mark::Name | Mark::Schedule | Mark::Failing | Mark::End | Mark::Note | Mark::Ordered => Ok(
            false,
        ),
    }
}

/// Takes a line. Whether it can be read.
fn take(alloc: Global, rows: &mut Vec<Row>, line: Line) -> Result<bool, AllocError> {
    let Line { number, mark, text } = line;
    if let Mark::Name = mark {
        rows.push(Row {
            number,
            name: text,
            indices: Vec::new(alloc),
            sets: Vec::new(alloc),
            asked: Vec::new(alloc),
            wanted: Vec::new(alloc),
        })?;
        return Ok(true);
    }
    match rows.last_mut() {
        Some(row) => take_part(row, mark, text),
        None => Ok(false),
    }
}

/// The rows of a file. A file without rows has an unreadable first line.
pub fn read_rows(alloc: Global, bytes: &[u8]) -> Result<Rows, AllocError> {
    let mut rows = Vec::new(alloc);
    let mut unreadable = Vec::new(alloc);
    for line in lines(alloc, bytes)? {
        match line {
            Err(cause) => unreadable.push(cause.number)?,
            Ok(line) => {
                let number = line.number;
                if !take(alloc, &mut rows, line)? {
                    unreadable.push(number)?;
                }
            }
        }
    }
    if rows.is_empty() {
        unreadable.push(1)?;
    }
    Ok(Rows { rows, unreadable })
}
