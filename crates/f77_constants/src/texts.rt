//! Texts: their lengths, and how they compare (ANSI X3.9-1978, sections 6.2, 6.3.5 and 10.4).
ghost use Rattle.std.specs.Prelude.{◌≡◌, ◌++◌, take, IfOk};
ghost use Rattle.f77_structure.specs.Values.{of_length, compared_texts};

use hyb_base::bytes::Bytes;
use hyb_base::no_memory::NoMemory;
use std::alloc::Global;
use std::cmp::Ordering;

/// The first characters of a text, at most so many.
pub fn cut(alloc: Global, text: &[u8], most: usize) -> Result<Bytes, NoMemory>
    ensures { IfOk result (λ kept. kept ≡ take most text.now) }
{
    Bytes::from_slice(alloc, &text[..text.len().min(most)])
}

#[tactic(auto, using(crate::proofs::TextLemmas::filled))]
/// A text of a length: cut, or filled with blanks on the right.
pub fn of_length(alloc: Global, text: &[u8], len: usize) -> Result<Bytes, NoMemory>
    ensures { IfOk result (λ filled. filled ≡ of_length len text.now) }
{
    let blanks = vec![in alloc; b' '; len.saturating_sub(text.len())]?;
    let mut filled = cut(alloc, text, len)?;
    filled.push_slice(blanks.as_slice())?;
    Ok(filled)
}

/// Two texts, one after the other.
pub fn concatenated(alloc: Global, left: &[u8], right: &[u8]) -> Result<Bytes, NoMemory>
    ensures { IfOk result (λ both. both ≡ left.now ++ right.now) }
{
    let mut both = Bytes::from_slice(alloc, left)?;
    both.push_slice(right)?;
    Ok(both)
}

/// How two texts compare: the shorter one filled with blanks, character by character.
pub fn compared(alloc: Global, left: &[u8], right: &[u8]) -> Result<Ordering, NoMemory>
    ensures { IfOk result (λ order. order ≡ compared_texts left.now right.now) }
{
    let len = left.len().max(right.len());
    let left = of_length(alloc, left, len)?;
    let right = of_length(alloc, right, len)?;
    Ok(left.as_slice().cmp(right.as_slice()))
}
