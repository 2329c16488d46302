//! Escapes: what a backslash in a text means.
ghost use Rattle.std.specs.Prelude.{◌≤◌, length, IfOk};
ghost use Rattle.std.specs.Iterator.{at_most};

use crate::repeat::{Repeat, read_repeat};
use thiserror::Error;

/// Why the escapes of a text can't be read.
#[derive(Clone, Copy, Debug, Error)]
pub enum BadEscape {
    /// A backslash at the end, or followed by a byte that begins no escape.
    #[error("a backslash that begins no escape")]
    Unknown,
    /// `\x` that isn't followed by two hex digits.
    #[error("\\x without two hex digits")]
    Hex,
    /// `\.` that isn't at the end of a line.
    #[error("\\. before the end of the line")]
    NoFeed,
    /// `\(` that isn't followed by a number, a blank, a text and `)`.
    #[error("\\( without a number, a blank, a text and )")]
    Repeat,
    /// A repeat of more bytes than `LONGEST_REPEAT`.
    #[error("a repeat of too many bytes")]
    LongRepeat,
}

/// A piece of a text with escapes.
#[derive(Clone, Copy)]
pub enum Piece<'a> {
    /// A byte, written by itself or by an escape.
    Byte(u8),
    /// A text that is repeated.
    Repeat(Repeat<'a>),
    /// `\.`: no LF follows the text.
    NoFeed,
}

/// The pieces of a text with escapes, from the first on. What follows a bad escape is not read on from its end.
#[derive(Drop)]
pub struct Pieces<'a> {
    rest: &'a [u8],
}

impl<'a> Pieces<'a> {
    /// The pieces of a text.
    pub fn new(text: &'a [u8]) -> Pieces<'a> {
        Pieces { rest: text }
    }
}

impl<'a> Iterator for Pieces<'a> {
    type Item = Result<Piece<'a>, BadEscape>;

    ghost remaining = { λ pieces. at_most (length pieces.rest.now) };

    fn next(&mut self) -> Option<Result<Piece<'a>, BadEscape>> {
        let (first, rest) = self.rest.split_first()?;
        self.rest = rest;
        if *first != b'\\' {
            return Some(Ok(Piece::Byte(*first)));
        }
        match escaped(rest) {
            Ok((piece, rest)) => {
                self.rest = rest;
                Some(Ok(piece))
            }
            Err(bad) => Some(Err(bad)),
        }
    }
}

/// The piece that follows a backslash, and the text after it.
fn escaped(text: &[u8]) -> Result<(Piece<'_>, &[u8]), BadEscape>
    ensures { IfOk result (λ read. length read.1.now ≤ length text.now) }
{
    let (letter, rest) = text.split_first().ok_or(BadEscape::Unknown)?;
    match letter {
        b'\\' => Ok((Piece::Byte(b'\\'), rest)),
        b't' => Ok((Piece::Byte(b'\t'), rest)),
        b'r' => Ok((Piece::Byte(b'\r'), rest)),
        b'n' => Ok((Piece::Byte(b'\n'), rest)),
        b'x' => hex_byte(rest),
        b'(' => {
            let (repeat, rest) = read_repeat(rest)?;
            Ok((Piece::Repeat(repeat), rest))
        }
        b'.' if rest.is_empty() => Ok((Piece::NoFeed, rest)),
        b'.' => Err(BadEscape::NoFeed),
        _ => Err(BadEscape::Unknown),
    }
}

/// The byte of the two hex digits at the front of a text, and the text after them.
fn hex_byte(text: &[u8]) -> Result<(Piece<'_>, &[u8]), BadEscape>
    ensures { IfOk result (λ read. length read.1.now ≤ length text.now) }
{
    let (digits, rest) = text.split_at_checked(2).ok_or(BadEscape::Hex)?;
    let byte = hex_value(digits).ok_or(BadEscape::Hex)?;
    Ok((Piece::Byte(byte), rest))
}

/// The number that hex digits of both cases stand for, where they are digits and it fits a byte.
fn hex_value(digits: &[u8]) -> Option<u8> {
    if !digits.iter().all(|digit| digit.is_ascii_hexdigit()) {
        return None;
    }
    u8::from_str_radix(str::from_utf8(digits).ok()?, 16).ok()
}
