//! Repeats: `\(N TEXT)` is TEXT N times.
ghost use Rattle.std.specs.Prelude.{◌≤◌, ◌<◌, length, IfOk, IfSome};

use crate::escape::BadEscape;

/// The greatest number of bytes that a repeat may ask for, counted by its text as it is written.
pub const LONGEST_REPEAT: u64 = 16_777_216;

/// A text that is repeated.
#[derive(Clone, Copy)]
pub struct Repeat<'a> {
    /// How often.
    pub times: u64,
    /// The text as it is written, with escapes.
    pub text: &'a [u8],
}

/// The repeat that follows `\(`, and the text after its `)`.
pub fn read_repeat(text: &[u8]) -> Result<(Repeat<'_>, &[u8]), BadEscape>
    ensures { IfOk result (λ read. length read.1.now ≤ length text.now) }
{
    let (inner, rest) = split_at_byte(text, b')').ok_or(BadEscape::Repeat)?;
    let (digits, repeated) = split_at_byte(inner, b' ').ok_or(BadEscape::Repeat)?;
    let times = number(digits).ok_or(BadEscape::Repeat)?;
    if times.saturating_mul(repeated.len().max(1) as u64) > LONGEST_REPEAT {
        return Err(BadEscape::LongRepeat);
    }
    let repeat = Repeat {
        times,
        text: repeated,
    };
    Ok((repeat, rest))
}

/// The text before the first of some bytes, and the text after it.
fn split_at_byte(text: &[u8], byte: u8) -> Option<(&[u8], &[u8])>
    ensures { IfSome result (λ parts. length parts.1.now < length text.now) }
{
    let at = text.iter().position(|other| *other == byte)?;
    let (before, from) = text.split_at(at);
    let (_, after) = from.split_first()?;
    Some((before, after))
}

/// The number that decimal digits stand for, where they are digits and it has 64 bits.
fn number(digits: &[u8]) -> Option<u64> {
    if !digits.iter().all(|byte| byte.is_ascii_digit()) {
        return None;
    }
    str::from_utf8(digits).ok()?.parse().ok()
}
