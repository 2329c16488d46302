//! The rows of a file.

use row_lines::escape::BadEscape;
use row_lines::line::Line;
use row_lines::lines;
use row_lines::mark::Mark;
use std::alloc::{AllocError, Global};
use thiserror::Error;

/// What a row is about, by the first word of its line `$`.
#[derive(Clone, Copy)]
pub enum Kind {
    /// `schedule`: the source is a schedule file, and the words are the steps whose picks are shown.
    Schedule,
    /// `copies`: the source is a script over private copies.
    Copies,
    /// `partials`: the source is a script over partial results.
    Partials,
    /// `reserve`: the words are a window, and the number of cells of one region, or nothing for no region.
    Reserve,
}

/// A row: what is given, and what is wanted.
#[derive(Drop)]
pub struct Row {
    /// The number of its line `@`, from 1.
    pub number: u64,
    /// Its name.
    pub name: Vec<u8>,
    /// What it is about.
    pub kind: Kind,
    /// The words of its line `$` after the first.
    pub words: Vec<u8>,
    /// Its lines of source.
    pub source: Vec<u8>,
    /// What it is to give.
    pub wanted: Vec<u8>,
}

/// A part of a file that can't be read.
#[derive(Clone, Copy, Debug, Error)]
#[error("{number}: {cause}")]
pub struct Unreadable {
    /// The line, from 1.
    pub number: u64,
    /// Why.
    pub cause: Cause,
}

/// Why a part of a file can't be read.
#[derive(Clone, Copy, Debug, Error)]
pub enum Cause {
    /// An escape of the line can't be read.
    #[error(transparent)]
    Escape(BadEscape),
    /// No line of the file has a name.
    #[error("a file without rows")]
    NoRows,
    /// The line is before the first name.
    #[error("a line before the first @")]
    NoName,
    /// The row has no line `$`, or one whose first word says nothing.
    #[error("a row without $ and what it is about")]
    NoKind,
    /// The row has a line `$` already.
    #[error("a second $")]
    SecondKind,
    /// The line has a mark that means nothing here.
    #[error("a mark that isn't used")]
    Mark,
}

/// A row of which not all lines are read.
#[derive(Drop)]
struct Draft {
    number: u64,
    name: Vec<u8>,
    command: Option<Vec<u8>>,
    source: Vec<u8>,
    wanted: Vec<u8>,
    unreadable: Option<Unreadable>,
}

impl Draft {
    fn new(alloc: Global, number: u64, name: Vec<u8>) -> Draft {
        Draft {
            number,
            name,
            command: None,
            source: Vec::new(alloc),
            wanted: Vec::new(alloc),
            unreadable: None,
        }
    }

    /// Notes that a line can't be read. The first such line is kept.
    fn refuse(&mut self, number: u64, cause: Cause) {
        if self.unreadable.is_none() {
            self.unreadable = Some(Unreadable { number, cause });
        }
    }

    /// Takes a line that isn't a name.
    fn take(&mut self, line: Line) -> Result<(), AllocError> {
        match line.mark {
            Mark::Source => self.source.extend_from_slice(&line.text)?,
            Mark::Printed => self.wanted.extend_from_slice(&line.text)?,
            Mark::Command => {
                if self.command.is_some() {
                    self.refuse(line.number, Cause::SecondKind);
                }
                self.command = Some(line.text);
            }
            Mark::Name
            | Mark::Input
            | Mark::Schedule
            | Mark::Failing
            | Mark::End
            | Mark::Note
            | Mark::Ordered => self.refuse(line.number, Cause::Mark),
        }
        Ok(())
    }

    /// The row, at its end.
    fn finish(self, alloc: Global) -> Result<Result<Row, Unreadable>, AllocError> {
        let Draft {
            number,
            name,
            command,
            source,
            wanted,
            unreadable,
        } = self;
        if let Some(unreadable) = unreadable {
            return Ok(Err(unreadable));
        }
        let cause = Cause::NoKind;
        let Some(command) = command else {
            return Ok(Err(Unreadable { number, cause }));
        };
        let Some((kind, words)) = kind_of(&command) else {
            return Ok(Err(Unreadable { number, cause }));
        };
        let words = Vec::from_slice(alloc, words)?;
        Ok(Ok(Row {
            number,
            name,
            kind,
            words,
            source,
            wanted,
        }))
    }
}

/// What a row is about, and the words that follow.
fn kind_of(command: &[u8]) -> Option<(Kind, &[u8])> {
    if let Some(words) = command.strip_prefix(b"schedule") {
        return Some((Kind::Schedule, words));
    }
    if let Some(words) = command.strip_prefix(b"copies") {
        return Some((Kind::Copies, words));
    }
    if let Some(words) = command.strip_prefix(b"partials") {
        return Some((Kind::Partials, words));
    }
    let words = command.strip_prefix(b"reserve")?;
    Some((Kind::Reserve, words))
}

/// The rows of a file in their order, each of them read or not. Lines before the first name are one that isn't, and so is a
/// file without rows.
pub fn rows(alloc: Global, file: &[u8]) -> Result<Vec<Result<Row, Unreadable>>, AllocError> {
    let mut rows = Vec::new(alloc);
    let mut draft: Option<Draft> = None;
    for line in lines(alloc, file)? {
        match line {
            Ok(line) => match line.mark {
                Mark::Name => {
                    if let Some(draft) = draft.take() {
                        rows.push(draft.finish(alloc)?)?;
                    }
                    draft = Some(Draft::new(alloc, line.number, line.text));
                }
                _ => {
                    let mut open = open_draft(alloc, draft.take(), line.number);
                    open.take(line)?;
                    draft = Some(open);
                }
            },
            Err(bad) => {
                let mut open = open_draft(alloc, draft.take(), bad.number);
                open.refuse(bad.number, Cause::Escape(bad.cause));
                draft = Some(open);
            }
        }
    }
    if let Some(draft) = draft.take() {
        rows.push(draft.finish(alloc)?)?;
    }
    if rows.is_empty() {
        rows.push(Err(Unreadable {
            number: 1,
            cause: Cause::NoRows,
        }))?;
    }
    Ok(rows)
}

/// The row whose lines are being read; before the first name one that can't be read.
fn open_draft(alloc: Global, draft: Option<Draft>, number: u64) -> Draft {
    match draft {
        Some(draft) => draft,
        None => {
            let mut draft = Draft::new(alloc, number, Vec::new(alloc));
            draft.refuse(number, Cause::NoName);
            draft
        }
    }
}
