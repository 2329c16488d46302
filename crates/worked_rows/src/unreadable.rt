//! Why a row can't be read.

use row_lines::escape::BadEscape;
use thiserror::Error;

/// A part of a file that can't be read.
#[derive(Clone, Copy, Debug, Error)]
#[error("{number}: {cause}")]
pub struct Unreadable {
    /// The first line that can't be read, from 1; of a row without an end the line of its name.
    pub number: u64,
    /// Why.
    pub cause: Cause,
}

/// Why a part of a file can't be read.
#[derive(Clone, Copy, Debug, Error)]
pub enum Cause {
    /// An escape of the line can't be read.
    #[error(transparent)]
    Escape(BadEscape),
    /// No line of the file has a name.
    #[error("a file without rows")]
    NoRows,
    /// The line is before the first name.
    #[error("a line before the first @")]
    NoName,
    /// The row has no end.
    #[error("a row without =")]
    NoEnd,
    /// The row has an end already.
    #[error("a second =")]
    SecondEnd,
    /// The row has a command already.
    #[error("a second $")]
    SecondCommand,
    /// The end isn't an exit code and a number of steps, or beside a command an exit code alone.
    #[error("= without an exit code and a number of steps (beside $ an exit code alone)")]
    End,
    /// The line isn't `files`, `out` or `notes` and a number from 1.
    #[error("* without files, out or notes and a number from 1")]
    Failing,
}

impl Unreadable {
    /// Whether it is a row of the file.
    pub fn is_row(&self) -> bool {
        !matches!(&self.cause, Cause::NoRows | Cause::NoName)
    }
}
