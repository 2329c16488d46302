//! Types and their lengths (ANSI X3.9-1978, section 8.4).
ghost use Rattle.std.specs.Prelude.{◌≡◌, ◌≤◌, length};
ghost use Rattle.f77_exprs.specs.Read.{Reads};
ghost use Rattle.f77_forms.specs.Form.{read};
ghost use Rattle.f77_parts.specs.Parts as parts;

use f77_ast::specification::{Length, TypeSpec};
use f77_exprs::grammar::expr_within;
use f77_exprs::reader::Reader;
use f77_exprs::unread::Unread;
use f77_forms::leaves::{a_number, expect_word};
use std::alloc::Global;

/// `*)`, or expr `)`
fn paren_length(alloc: Global, reader: &mut Reader<'_>, depth: usize) -> Result<Length, Unread>
    ensures value { Reads (read depth parts.paren_length reader.old) result reader.new }
    ensures within { length reader.new ≤ length reader.old }
{
    if reader.eat_word(b"*".as_slice()) {
        expect_word(reader, b")".as_slice())?;
        return Ok(Length::Asterisk);
    }
    let value = expr_within(alloc, reader, depth)?;
    expect_word(reader, b")".as_slice())?;
    Ok(Length::Paren(value))
}

/// len: digits; `(` expr `)`; `(*)` (ANSI X3.9-1978, section 8.4.2)
pub fn len(alloc: Global, reader: &mut Reader<'_>, depth: usize) -> Result<Length, Unread>
    ensures value { Reads (read depth parts.len reader.old) result reader.new }
    ensures within { length reader.new ≤ length reader.old }
{
    if reader.eat_word(b"(".as_slice()) {
        return paren_length(alloc, reader, depth);
    }
    let value = a_number(reader)?;
    Ok(Length::Digits(value))
}

/// [`*` len]
pub fn len_option(
    alloc: Global,
    reader: &mut Reader<'_>,
    depth: usize,
) -> Result<Option<Length>, Unread>
    ensures value { Reads (read depth parts.len_option reader.old) result reader.new }
    ensures within { length reader.new ≤ length reader.old }
{
    if !reader.eat_word(b"*".as_slice()) {
        return Ok(None);
    }
    let found = len(alloc, reader, depth)?;
    Ok(Some(found))
}

/// typ: `INTEGER`; `LOGICAL`; `CHARACTER` [`*` len] (ANSI X3.9-1978, sections 8.4.1, 8.4.2 and 8.5)
pub fn type_spec(alloc: Global, reader: &mut Reader<'_>, depth: usize) -> Result<TypeSpec, Unread>
    ensures value { Reads (read depth parts.type_spec reader.old) result reader.new }
    ensures within { length reader.new ≤ length reader.old }
{
    if reader.eat_word(b"INTEGER".as_slice()) {
        return Ok(TypeSpec::Integer);
    }
    if reader.eat_word(b"LOGICAL".as_slice()) {
        return Ok(TypeSpec::Logical);
    }
    expect_word(reader, b"CHARACTER".as_slice())?;
    let length = len_option(alloc, reader, depth)?;
    Ok(TypeSpec::Character(length))
}
