//! The rows of a file.

use crate::row::Row;
use row_lines::line::Line;
use row_lines::lines;
use row_lines::mark::Mark;
use std::alloc::{AllocError, Global};

/// The rows of a file, and the numbers of the lines that can't be read.
#[derive(Drop)]
pub struct Rows {
    /// The rows, in their order.
    pub rows: Vec<Row>,
    /// The lines that can't be read.
    pub unreadable: Vec<u64>,
}

/// Takes a line. Whether it can be read.
fn take(alloc: Global, rows: &mut Vec<Row>, line: Line) -> Result<bool, AllocError> {
    let Line { number, mark, text } = line;
    if let Mark::Name = mark {
        rows.push(Row {
            number,
            name: text,
            regions: None,
            call: None,
            lists: Vec::new(alloc),
            open: None,
            wanted: Vec::new(alloc),
        })?;
        return Ok(true);
    }
    let Some(row) = rows.last_mut() else {
        return Ok(false);
    };
    match mark {
        Mark::End => {
            let first = row.regions.is_none();
            row.regions = Some(text);
            Ok(first)
        }
        Mark::Command => {
            let first = row.call.is_none();
            row.call = Some(text);
            Ok(first)
        }
        Mark::Input => {
            row.lists.push(text)?;
            Ok(true)
        }
        Mark::Schedule => {
            let first = row.open.is_none();
            row.open = Some(text);
            Ok(first)
        }
        Mark::Printed => {
            row.wanted.push(text)?;
            Ok(true)
        }
        Mark::Name | Mark::Failing | Mark::Note | Mark::Ordered | Mark::Source => Ok(false),
    }
}

/// The rows of a file. A file without rows has an unreadable first line.
pub fn read_rows(alloc: Global, bytes: &[u8]) -> Result<Rows, AllocError> {
    let mut rows = Vec::new(alloc);
    let mut unreadable = Vec::new(alloc);
    for line in lines(alloc, bytes)? {
        match line {
            Err(cause) => unreadable.push(cause.number)?,
            Ok(line) => {
                let number = line.number;
                if !take(alloc, &mut rows, line)? {
                    unreadable.push(number)?;
                }
            }
        }
    }
    if rows.is_empty() {
        unreadable.push(1)?;
    }
    Ok(Rows { rows, unreadable })
}
