//! What is in a text outside character constants and dotted words.
ghost use Rattle.std.specs.Prelude.{◌≡◌, ◌∷◌, [], false, map, IfOk};
ghost use Rattle.f77_exprs.specs.Cause as spec;

use crate::operators::begins;
use hyb_base::bytes::Bytes;
use hyb_base::no_memory::NoMemory;
use std::alloc::Global;

/// A byte, or a blank in its place.
fn unless(hidden: bool, byte: u8) -> u8
    ensures { result ≡ spec.unless hidden byte }
{
    if hidden { b' ' } else { byte }
}

/// Whether what follows a byte is inside a character constant: an apostrophe begins one, and the next ends it.
fn inside_after(inside: bool, byte: u8) -> bool
    ensures { result ≡ spec.inside_after inside byte }
{
    if byte == b'\'' { !inside } else { inside }
}

/// A text with blanks in place of its character constants (ANSI X3.9-1978, section 4.8).
fn without_constants(alloc: Global, text: &[u8]) -> Result<Bytes, NoMemory>
    ensures { IfOk result (λ b. b ≡ spec.without_constants false text.now) }
{
    let mut found = Bytes::with_capacity(alloc, text.len())?;
    let mut inside = false;
    let mut rest = text;
    while let Some((byte, after)) = rest.split_first() {
        found.push(unless(inside || *byte == b'\'', *byte))?;
        inside = inside_after(inside, *byte);
        rest = after;
    }
    Ok(found)
}

/// The length of the first of some words that a text begins with: 0 where it begins with none.
fn first_length(words: &[&[u8]], text: &[u8]) -> usize
    ensures { result ≡ spec.word_length (map (λ word. word.now) words.now) text.now }
{
    match words {
        [] => 0,
        [word, others @ ..] => {
            if begins(word, text) {
                word.len()
            } else {
                first_length(others, text)
            }
        }
    }
}

/// The length of the dotted word that a text begins with: 0 where it begins with none.
fn word_length(text: &[u8]) -> usize
    ensures { result ≡ spec.word_length spec.dotted_words text.now }
{
    first_length(
        &[
            b".EQ.".as_slice(),
            b".NE.".as_slice(),
            b".LT.".as_slice(),
            b".LE.".as_slice(),
            b".GT.".as_slice(),
            b".GE.".as_slice(),
            b".NOT.".as_slice(),
            b".AND.".as_slice(),
            b".OR.".as_slice(),
            b".EQV.".as_slice(),
            b".NEQV.".as_slice(),
            b".TRUE.".as_slice(),
            b".FALSE.".as_slice(),
        ],
        text,
    )
}

/// How many bytes of a dotted word are from here on, where `left` are left of one that began before.
fn dotted_from(left: usize, text: &[u8]) -> usize
    ensures { result ≡ spec.dotted_from left text.now }
{
    if left == 0 { word_length(text) } else { left }
}

/// A text with blanks in place of its dotted words, which are taken from the left.
fn without_words(alloc: Global, text: &[u8]) -> Result<Bytes, NoMemory>
    ensures { IfOk result (λ b. b ≡ spec.without_words 0 text.now) }
{
    let mut found = Bytes::with_capacity(alloc, text.len())?;
    let mut left = 0;
    let mut rest = text;
    while let Some((byte, after)) = rest.split_first() {
        let dotted = dotted_from(left, rest);
        found.push(unless(dotted > 0, *byte))?;
        left = dotted.saturating_sub(1);
        rest = after;
    }
    Ok(found)
}

/// A text with blanks in place of its character constants and dotted words.
pub fn outside(alloc: Global, text: &[u8]) -> Result<Bytes, NoMemory>
    ensures { IfOk result (λ b. b ≡ spec.outside text.now) }
{
    let plain = without_constants(alloc, text)?;
    without_words(alloc, plain.as_slice())
}
