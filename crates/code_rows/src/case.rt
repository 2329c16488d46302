//! A case, and why one can't be read.

use row_lines::line::UnreadableLine;
use thiserror::Error;

/// A source, and what is to be shown of it.
#[derive(Drop)]
pub struct Case {
    /// The number of its first line in the file of cases, from 1.
    pub line: u64,
    /// The name of its group.
    pub group: Vec<u8>,
    /// Its source.
    pub source: Vec<u8>,
    /// The number of its lines of what is wanted.
    pub wanted_lines: u64,
    /// What is wanted.
    pub wanted: Vec<u8>,
}

/// Why a part of a file of cases can't be read.
#[derive(Clone, Copy, Debug, Error)]
pub enum Unreadable {
    /// A line whose escapes can't be read.
    #[error("{0}")]
    Line(UnreadableLine),
    /// A line before the first group.
    #[error("line {0}: before the first group")]
    NoGroup(u64),
    /// A line that no case has, as a line of input.
    #[error("line {0}: a line that no case has")]
    WrongMark(u64),
    /// A line of what is wanted without a source before it.
    #[error("line {0}: what is wanted, without a source")]
    NoSource(u64),
    /// A case without what is wanted, by its first line.
    #[error("line {0}: a source, without what is wanted")]
    NothingWanted(u64),
    /// A file without a case.
    #[error("no case")]
    NoCase,
}
