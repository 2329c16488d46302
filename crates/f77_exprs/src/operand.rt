//! Constants, as they are read from a text (ANSI X3.9-1978, section 4).
ghost use Rattle.std.specs.Prelude.{◌≡◌, ◌≤◌, [], length};
ghost use Rattle.f77_exprs.specs.Read.{Reads};
ghost use Rattle.f77_exprs.specs.Reading as spec;

use crate::reader::Reader;
use crate::unread::Unread;
use f77_ast::expr::Expr;
use hyb_base::bytes::Bytes;
use std::alloc::Global;

/// The bytes of a character constant up to the apostrophe that ends it: two apostrophes side by side are one.
fn characters(alloc: Global, reader: &mut Reader<'_>) -> Result<Bytes, Unread>
    ensures value { Reads (spec.characters [] reader.old) result reader.new }
    ensures within { length reader.new ≤ length reader.old }
{
    let mut found = Bytes::new(alloc);
    while let Some(byte) = reader.next_byte() {
        if byte == b'\'' && !reader.eat(b'\'') {
            return Ok(found);
        }
        found.push(byte)?;
    }
    Err(Unread::Unspelled)
}

/// primary: a character constant of at least one character, after its first apostrophe
/// (ANSI X3.9-1978, section 4.8.1).
#[tactic(auto, unfolding(crate::specs::Reading::constant))]
pub fn constant(alloc: Global, reader: &mut Reader<'_>) -> Result<Bytes, Unread>
    ensures value { Reads (spec.constant reader.old) result reader.new }
    ensures within { length reader.new ≤ length reader.old }
{
    let bytes = characters(alloc, reader)?;
    if bytes.is_empty() {
        return Err(Unread::Unspelled);
    }
    Ok(bytes)
}

/// primary: a constant, where one comes next (ANSI X3.9-1978, section 4.2).
#[tactic(auto, unfolding(crate::specs::Reading::literal))]
pub fn literal(alloc: Global, reader: &mut Reader<'_>) -> Result<Option<Expr>, Unread>
    ensures value { Reads (spec.literal reader.old) result reader.new }
    ensures within { length reader.new ≤ length reader.old }
{
    if reader.eat(b'\'') {
        let bytes = constant(alloc, reader)?;
        return Ok(Some(Expr::Chars(bytes)));
    }
    if reader.eat_word(b".TRUE.".as_slice()) {
        return Ok(Some(Expr::Truth(true)));
    }
    if reader.eat_word(b".FALSE.".as_slice()) {
        return Ok(Some(Expr::Truth(false)));
    }
    reader.number()
}
