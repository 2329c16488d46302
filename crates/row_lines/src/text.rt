//! The text of a line, by the form in which it is written.

use crate::escape::{BadEscape, Piece, Pieces};
use crate::repeat::Repeat;
use std::alloc::{AllocError, Global};

/// A text without the blanks at both ends.
pub fn trimmed(text: &[u8]) -> &[u8] {
    let is_other = |byte: &u8| *byte != b' ';
    match (
        text.iter().position(is_other),
        text.iter().rposition(is_other),
    ) {
        (Some(first), Some(last)) if first <= last && last < text.len() => &text[first..last + 1],
        _ => &[],
    }
}

/// A line as it is, and an LF.
pub fn plain(alloc: Global, first: u8, rest: &[u8]) -> Result<Vec<u8>, AllocError> {
    let mut text = Vec::with_capacity(alloc, rest.len().saturating_add(2))?;
    text.push(first)?;
    text.extend_from_slice(rest)?;
    text.push(b'\n')?;
    Ok(text)
}

/// A text with its escapes done, and an LF unless `\.` ends it.
pub fn unescaped(alloc: Global, text: &[u8]) -> Result<Result<Vec<u8>, BadEscape>, AllocError> {
    let mut bytes = Vec::new(alloc);
    let mut has_feed = true;
    for piece in Pieces::new(text) {
        match piece {
            Ok(Piece::Byte(byte)) => bytes.push(byte)?,
            Ok(Piece::Repeat(repeat)) => {
                if let Err(bad) = add_repeat(alloc, &mut bytes, repeat)? {
                    return Ok(Err(bad));
                }
            }
            Ok(Piece::NoFeed) => has_feed = false,
            Err(bad) => return Ok(Err(bad)),
        }
    }
    if has_feed {
        bytes.push(b'\n')?;
    }
    Ok(Ok(bytes))
}

/// Adds a repeated text, in which escapes of single bytes are done.
fn add_repeat(
    alloc: Global,
    bytes: &mut Vec<u8>,
    repeat: Repeat<'_>,
) -> Result<Result<(), BadEscape>, AllocError> {
    let mut text = Vec::new(alloc);
    for piece in Pieces::new(repeat.text) {
        match piece {
            Ok(Piece::Byte(byte)) => text.push(byte)?,
            Ok(Piece::Repeat(_)) => return Ok(Err(BadEscape::Repeat)),
            Ok(Piece::NoFeed) => return Ok(Err(BadEscape::NoFeed)),
            Err(bad) => return Ok(Err(bad)),
        }
    }
    for _ in 0..repeat.times {
        bytes.extend_from_slice(&text)?;
    }
    Ok(Ok(()))
}
