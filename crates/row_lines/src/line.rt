//! The lines of a file.

use crate::escape::BadEscape;
use crate::mark::{Form, Mark};
use crate::text::{plain, trimmed, unescaped};
use std::alloc::{AllocError, Global};
use thiserror::Error;

/// A line of a row file.
#[derive(Drop)]
pub struct Line {
    /// Its number in the file, from 1.
    pub number: u64,
    /// What it is.
    pub mark: Mark,
    /// Its text, without its mark, with escapes done, and with LF at its end where it has one.
    pub text: Vec<u8>,
}

/// A line that can't be read.
#[derive(Clone, Copy, Debug, Error)]
#[error("line {number}: {cause}")]
pub struct UnreadableLine {
    /// Its number in the file, from 1.
    pub number: u64,
    /// Why.
    pub cause: BadEscape,
}

/// The lines of a file in their order, without empty lines and remarks, each of them read or not.
pub fn lines(alloc: Global, file: &[u8]) -> Result<Vec<Result<Line, UnreadableLine>>, AllocError> {
    let mut lines = Vec::new(alloc);
    for (number, bytes) in (1u64..).zip(file.split(|byte| *byte == b'\n')) {
        match bytes.split_first() {
            None | Some((b'#', _)) => {}
            Some((first, rest)) => lines.push(read_line(alloc, number, *first, rest)?)?,
        }
    }
    Ok(lines)
}

/// The line of a first byte and the bytes that follow it.
fn read_line(
    alloc: Global,
    number: u64,
    first: u8,
    rest: &[u8],
) -> Result<Result<Line, UnreadableLine>, AllocError> {
    let mark = Mark::of(first);
    let text = match mark.form(first) {
        Form::Words => Ok(Vec::from_slice(alloc, trimmed(rest))?),
        Form::Plain => Ok(plain(alloc, first, rest)?),
        Form::Escaped => unescaped(alloc, rest)?,
    };
    Ok(match text {
        Ok(text) => Ok(Line { number, mark, text }),
        Err(cause) => Err(UnreadableLine { number, cause }),
    })
}
