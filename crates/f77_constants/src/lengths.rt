//! The lengths of names of CHARACTER (ANSI X3.9-1978, section 8.4.2).
ghost use Rattle.std.specs.Prelude.{◌≡◌, IfOk};
ghost use Rattle.std.specs.Option.{option_copied, option_map};
ghost use Rattle.f77_leaves.specs.Declarations.{implicit_typing, typing_of};
ghost use Rattle.f77_uses.specs.Tables.{told_by};
ghost use Rattle.f77_constants.specs.Constants as spec;
ghost use Rattle.f77_constants.specs.Values.{meant, value_in};

use crate::evaluate::value_of_expr;
use crate::value::{Value, Values};
use f77_ast::limits::MOST_CHARACTERS;
use f77_ast::name::Name;
use f77_ast::specification::Length;
use f77_leaves::declarations::Typing;
use f77_uses::tables::Tables;
use hyb_base::no_memory::NoMemory;
use std::alloc::Global;

/// A number of characters, where it is one that a length may be.
fn length_if(number: i64) -> Option<u32>
    ensures { result ≡ spec.length_if number }
{
    if 1 <= number && number <= i64::from(MOST_CHARACTERS) {
        Some(number as u32)
    } else {
        None
    }
}

/// The number of characters that a value is, where it is one that a length may be.
fn length_by_value(value: Option<Value>) -> Option<u32>
    ensures { result ≡ spec.length_by_value (option_map meant value) }
{
    match value {
        None => None,
        Some(Value::Integer(number)) => length_if(number),
        Some(Value::Truth(_)) => None,
        Some(Value::Chars(_)) => None,
    }
}

/// The length that is written, by the values of names: 1 where none is; none for `(*)`, for what isn't constant, and for
/// what no length may be.
pub fn length_by(
    alloc: Global,
    length: Option<&Length>,
    values: &Values,
) -> Result<Option<u32>, NoMemory>
    ensures { IfOk result (λ found. found ≡ spec.length_by (value_in values.now) (option_copied length.entry)) }
{
    match length {
        None => Ok(Some(1)),
        Some(Length::Digits(digits)) => Ok(length_if(*digits)),
        Some(Length::Paren(expr)) => Ok(length_by_value(value_of_expr(alloc, expr, values)?)),
        Some(Length::Asterisk) => Ok(None),
    }
}

/// The length in a type that may be there.
fn written_in(typing: Option<&Typing>) -> Option<&Length>
    ensures { option_copied result ≡ spec.written_length (option_copied typing.entry) }
{
    match typing {
        None => None,
        Some(typing) => typing.length.as_ref(),
    }
}

/// The length that IMPLICIT gives a name.
fn implied_length<'t>(tables: &'t Tables, name: &[u8]) -> Option<&'t Length>
    ensures { option_copied result ≡ spec.written_length (implicit_typing (told_by tables.now) name.now) }
{
    match name {
        [] => None,
        [letter, ..] => written_in(tables.letters.find(*letter)),
    }
}

/// The type that a type statement or FUNCTION gives a name.
fn own_typing<'t>(tables: &'t Tables, name: &Name) -> Option<&'t Typing>
    ensures { option_copied result ≡ ((told_by tables.now).known name.now).typing }
{
    match tables.names.find(name) {
        None => None,
        Some(known) => known.typing.as_ref(),
    }
}

/// The length that is written in the type of a name.
pub fn written_length<'t>(tables: &'t Tables, name: &Name) -> Option<&'t Length>
    ensures { option_copied result ≡ spec.written_length (typing_of (told_by tables.now) name.now) }
{
    match own_typing(tables, name) {
        None => implied_length(tables, name.as_slice()),
        Some(typing) => typing.length.as_ref(),
    }
}

/// The length of a name of CHARACTER, by the values of names.
pub fn name_length(
    alloc: Global,
    tables: &Tables,
    name: &Name,
    values: &Values,
) -> Result<Option<u32>, NoMemory>
    ensures { IfOk result (λ found. found ≡ spec.name_length (told_by tables.now) (value_in values.now) name.now) }
{
    length_by(alloc, written_length(tables, name), values)
}
