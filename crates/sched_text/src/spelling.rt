//! What a line of a schedule says.
ghost use Rattle.std.specs.Prelude.{◌≡◌, IfOk, Some, None, if◌then◌else◌};
ghost use Rattle.std.specs.Option.{option_copied};
ghost use Rattle.sched_text.specs.Form.{after_word, in_window, window_of, seed_of, list_of, numbers_of, parts_after, pushed};

use crate::lines::split_at_first;
use crate::number::read_number;
use crate::schedule::MAX_WINDOW;
use hyb_base::no_memory::NoMemory;
use hyb_base::nums::Nums;

/// What follows a word at the front of a line: none where the line begins with anything else.
fn after_word<'a>(word: &[u8], line: &'a [u8]) -> Option<&'a [u8]>
    ensures { option_copied result ≡ after_word word.now line.now }
{
    line.strip_prefix(word)
}

/// A number that is a window.
fn in_window(number: Option<u64>) -> Option<u32>
    ensures { result ≡ in_window number }
{
    match number {
        None => None,
        Some(window) => {
            if 1 <= window && window <= MAX_WINDOW {
                Some(window as u32)
            } else {
                None
            }
        }
    }
}

/// The window of a line `WINDOW w`: none where the line is no such line.
pub fn window_of(line: &[u8]) -> Option<u32>
    ensures { result ≡ window_of line.now }
{
    match after_word(b"WINDOW ", line) {
        None => None,
        Some(text) => in_window(read_number(text)),
    }
}

/// The seed of a line `MIX s`: none where the line is no such line.
pub fn seed_of(line: &[u8]) -> Option<u64>
    ensures { result ≡ seed_of line.now }
{
    match after_word(b"MIX ", line) {
        None => None,
        Some(text) => read_number(text),
    }
}

/// Adds the picks of a line `LIST p p p` last. False where the line is no such line; then numbers may have been added.
pub fn push_list(line: &[u8], into: &mut Nums) -> Result<bool, NoMemory>
    ensures { IfOk result (λ read. pushed (list_of line.now) into.old ≡ (if read then Some into.new else None)) }
{
    match after_word(b"LIST ", line) {
        None => Ok(false),
        Some(texts) => push_numbers(texts, into),
    }
}

/// Adds numbers with one blank between each two. False where some text between blanks is no number.
fn push_numbers(texts: &[u8], into: &mut Nums) -> Result<bool, NoMemory>
    ensures { IfOk result (λ read. pushed (numbers_of (parts_after 32 (Some texts.now))) into.old ≡ (if read then Some into.new else None)) }
{
    let mut left = Some(texts);
    while let Some(words) = left {
        let (word, rest) = split_at_first(words, b' ');
        match read_number(word) {
            None => return Ok(false),
            Some(number) => into.push(number.cast_signed())?,
        }
        left = rest;
    }
    Ok(true)
}
