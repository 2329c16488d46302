//! The rows of a file.

use row_lines::escape::BadEscape;
use row_lines::line::Line;
use row_lines::lines;
use row_lines::mark::Mark;
use std::alloc::{AllocError, Global};
use thiserror::Error;

/// What is shown of a region.
#[derive(Clone, Copy)]
pub enum Kind {
    /// `steps W`, W being the window: the answer to each pick, with the cells after it.
    Steps,
    /// `end W`: what all picks together come to, with the cells after them.
    End,
}

/// A row: a loop, picks for it, and what is wanted.
#[derive(Drop)]
pub struct Row {
    /// The number of its line `@`, from 1.
    pub number: u64,
    /// Its name.
    pub name: Vec<u8>,
    /// What is shown.
    pub kind: Kind,
    /// The window.
    pub window: u32,
    /// Its lines `<`: the modes of the first cells, and what they hold at the entry.
    pub cells: Vec<u8>,
    /// Its lines `~`: the picks.
    pub picks: Vec<u8>,
    /// Its lines of source: the iterations.
    pub source: Vec<u8>,
    /// What it is to give.
    pub wanted: Vec<u8>,
}

/// A part of a file that can't be read.
#[derive(Clone, Copy, Debug, Error)]
#[error("{number}: {cause}")]
pub struct Unreadable {
    /// The line, from 1.
    pub number: u64,
    /// Why.
    pub cause: Cause,
}

/// Why a part of a file can't be read.
#[derive(Clone, Copy, Debug, Error)]
pub enum Cause {
    /// An escape of the line can't be read.
    #[error(transparent)]
    Escape(BadEscape),
    /// No line of the file has a name.
    #[error("a file without rows")]
    NoRows,
    /// The line is before the first name.
    #[error("a line before the first @")]
    NoName,
    /// The row has no line `$`, or one that isn't `steps` or `end` with a window.
    #[error("a row without $, what is shown and a window")]
    NoKind,
    /// The row has a line `$` already.
    #[error("a second $")]
    SecondKind,
    /// The line has a mark that means nothing here.
    #[error("a mark that isn't used")]
    Mark,
}

/// A row of which not all lines are read.
#[derive(Drop)]
struct Draft {
    number: u64,
    name: Vec<u8>,
    command: Option<Vec<u8>>,
    cells: Vec<u8>,
    picks: Vec<u8>,
    source: Vec<u8>,
    wanted: Vec<u8>,
    unreadable: Option<Unreadable>,
}

impl Draft {
    fn new(alloc: Global, number: u64, name: Vec<u8>) -> Draft {
        Draft {
            number,
            name,
            command: None,
            cells: Vec::new(alloc),
            picks: Vec::new(alloc),
            source: Vec::new(alloc),
            wanted: Vec::new(alloc),
            unreadable: None,
        }
    }

    /// Notes that a line can't be read. The first such line is kept.
    fn refuse(&mut self, number: u64, cause: Cause) {
        if self.unreadable.is_none() {
            self.unreadable = Some(Unreadable { number, cause });
        }
    }

    /// Takes a line that isn't a name.
    fn take(&mut self, line: Line) -> Result<(), AllocError> {
        match line.mark {
            Mark::Source => self.source.extend_from_slice(&line.text)?,
            Mark::Input => self.cells.extend_from_slice(&line.text)?,
            Mark::Schedule => self.picks.extend_from_slice(&line.text)?,
            Mark::Printed => self.wanted.extend_from_slice(&line.text)?,
            Mark::Command => {
                if self.command.is_some() {
                    self.refuse(line.number, Cause::SecondKind);
                }
                self.command = Some(line.text);
            }
            Mark::Name | Mark::Failing | Mark::End | Mark::Note | Mark::Ordered => {
                self.refuse(line.number, Cause::Mark);
            }
        }
        Ok(())
    }

    /// The row, at its end.
    fn finish(self) -> Result<Row, Unreadable> {
        let Draft {
            number,
            name,
            command,
            cells,
            picks,
            source,
            wanted,
            unreadable,
        } = self;
        if let Some(unreadable) = unreadable {
            return Err(unreadable);
        }
        let cause = Cause::NoKind;
        let Some(command) = command else {
            return Err(Unreadable { number, cause });
        };
        let Some((kind, window)) = kind_of(&command) else {
            return Err(Unreadable { number, cause });
        };
        Ok(Row {
            number,
            name,
            kind,
            window,
            cells,
            picks,
            source,
            wanted,
        })
    }
}

/// What is shown, and the window.
fn kind_of(command: &[u8]) -> Option<(Kind, u32)> {
    if let Some(words) = command.strip_prefix(b"steps ") {
        return Some((Kind::Steps, window_of(words)?));
    }
    let words = command.strip_prefix(b"end ")?;
    Some((Kind::End, window_of(words)?))
}

/// The window that a word is.
fn window_of(word: &[u8]) -> Option<u32> {
    str::from_utf8(word).ok()?.parse().ok()
}

/// The rows of a file in their order, each of them read or not. Lines before the first name are one that isn't, and so is a
/// file without rows.
pub fn rows(alloc: Global, file: &[u8]) -> Result<Vec<Result<Row, Unreadable>>, AllocError> {
    let mut rows = Vec::new(alloc);
    let mut draft: Option<Draft> = None;
    for line in lines(alloc, file)? {
        match line {
            Ok(line) => match line.mark {
                Mark::Name => {
                    if let Some(draft) = draft.take() {
                        rows.push(draft.finish())?;
                    }
                    draft = Some(Draft::new(alloc, line.number, line.text));
                }
                _ => {
                    let mut open = open_draft(alloc, draft.take(), line.number);
                    open.take(line)?;
                    draft = Some(open);
                }
            },
            Err(bad) => {
                let mut open = open_draft(alloc, draft.take(), bad.number);
                open.refuse(bad.number, Cause::Escape(bad.cause));
                draft = Some(open);
            }
        }
    }
    if let Some(draft) = draft.take() {
        rows.push(draft.finish())?;
    }
    if rows.is_empty() {
        rows.push(Err(Unreadable {
            number: 1,
            cause: Cause::NoRows,
        }))?;
    }
    Ok(rows)
}

/// The row whose lines are being read; before the first name one that can't be read.
fn open_draft(alloc: Global, draft: Option<Draft>, number: u64) -> Draft {
    match draft {
        Some(draft) => draft,
        None => {
            let mut draft = Draft::new(alloc, number, Vec::new(alloc));
            draft.refuse(number, Cause::NoName);
            draft
        }
    }
}
