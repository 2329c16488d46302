//! The parts of DATA (ANSI X3.9-1978, section 9.1).
ghost use Rattle.std.specs.Prelude.{◌≡◌, ◌≤◌, ℕ, length, IsOkUnless};
ghost use Rattle.f77_exprs.specs.Read.{Reads};
ghost use Rattle.f77_forms.specs.Form.{read};
ghost use Rattle.f77_parts.specs.Parts as parts;

use crate::sees::{sees_digit, sees_letter};
use crate::specifications::AWholeRef;
use f77_ast::data::{DataConstant, DataGroup, DataValue, Repeat};
use f77_ast::name::Name;
use f77_exprs::reader::Reader;
use f77_exprs::unread::Unread;
use f77_forms::leaves::{a_constant, a_number, expect_word};
use f77_forms::list::{Production, list, many, with_first};
use sqlite_items::Items;
use std::alloc::Global;

/// `TRUE.`, or `FALSE.`
fn truth(reader: &mut Reader<'_>) -> Result<DataConstant, Unread>
    ensures value { Reads (read 0 parts.truth reader.old) result reader.new }
    ensures within { length reader.new ≤ length reader.old }
    ensures err { IsOkUnless result Unread.Unspelled }
{
    if reader.eat_word(b"TRUE.".as_slice()) {
        return Ok(DataConstant::Truth(true));
    }
    expect_word(reader, b"FALSE.".as_slice())?;
    Ok(DataConstant::Truth(false))
}

/// digits after `-`
fn negative(reader: &mut Reader<'_>) -> Result<DataConstant, Unread>
    ensures value { Reads (read 0 parts.negative reader.old) result reader.new }
    ensures within { length reader.new ≤ length reader.old }
    ensures err { IsOkUnless result Unread.Unspelled }
{
    let value = a_number(reader)?;
    Ok(DataConstant::Int(-value))
}

/// digits
fn positive(reader: &mut Reader<'_>) -> Result<DataConstant, Unread>
    ensures value { Reads (read 0 parts.positive reader.old) result reader.new }
    ensures within { length reader.new ≤ length reader.old }
    ensures err { IsOkUnless result Unread.Unspelled }
{
    let value = a_number(reader)?;
    Ok(DataConstant::Int(value))
}

/// a character constant
fn quoted(alloc: Global, reader: &mut Reader<'_>) -> Result<DataConstant, Unread>
    ensures value { Reads (read 0 parts.quoted reader.old) result reader.new }
    ensures within { length reader.new ≤ length reader.old }
{
    let value = a_constant(alloc, reader)?;
    Ok(DataConstant::Chars(value))
}

/// a sign and digits; `.TRUE.`; `.FALSE.`; a character constant (ANSI X3.9-1978, section 9.1)
fn other_constant(alloc: Global, reader: &mut Reader<'_>) -> Result<DataConstant, Unread>
    ensures value { Reads (read 0 parts.other_constant reader.old) result reader.new }
    ensures within { length reader.new ≤ length reader.old }
{
    if reader.eat_word(b"+".as_slice()) {
        return positive(reader);
    }
    if reader.eat_word(b"-".as_slice()) {
        return negative(reader);
    }
    if reader.eat_word(b".".as_slice()) {
        return truth(reader);
    }
    quoted(alloc, reader)
}

/// name
fn named_constant(reader: &mut Reader<'_>) -> Result<DataConstant, Unread>
    ensures value { Reads (read 0 parts.named_constant reader.old) result reader.new }
    ensures within { length reader.new ≤ length reader.old }
    ensures err { IsOkUnless result Unread.Unspelled }
{
    let name = reader.name()?;
    Ok(DataConstant::Named(name))
}

/// const: [`+` or `-`] digits; `.TRUE.`; `.FALSE.`; a character constant; name (ANSI X3.9-1978, section 9.1)
fn data_constant(alloc: Global, reader: &mut Reader<'_>) -> Result<DataConstant, Unread>
    ensures value { Reads (read 0 parts.data_constant reader.old) result reader.new }
    ensures within { length reader.new ≤ length reader.old }
{
    if sees_digit(reader) {
        return positive(reader);
    }
    if sees_letter(reader) {
        return named_constant(reader);
    }
    other_constant(alloc, reader)
}

/// [`*` const]
fn repeated(alloc: Global, reader: &mut Reader<'_>) -> Result<Option<DataConstant>, Unread>
    ensures value { Reads (read 0 parts.repeated reader.old) result reader.new }
    ensures within { length reader.new ≤ length reader.old }
{
    if !reader.eat_word(b"*".as_slice()) {
        return Ok(None);
    }
    let found = data_constant(alloc, reader)?;
    Ok(Some(found))
}

/// The value of a repeat and a constant: the constant alone is the repeat itself.
fn value_of(repeat: Repeat, alone: DataConstant, constant: Option<DataConstant>) -> DataValue
    ensures { result ≡ parts.value_of repeat alone constant }
{
    match constant {
        None => DataValue {
            repeat: None,
            constant: alone,
        },
        Some(constant) => DataValue {
            repeat: Some(repeat),
            constant,
        },
    }
}

/// [repeat `*`] const, which begins with digits
fn digits_value(alloc: Global, reader: &mut Reader<'_>) -> Result<DataValue, Unread>
    ensures value { Reads (read 0 parts.digits_value reader.old) result reader.new }
    ensures within { length reader.new ≤ length reader.old }
{
    let value = a_number(reader)?;
    let constant = repeated(alloc, reader)?;
    Ok(value_of(Repeat::Digits(value), DataConstant::Int(value), constant))
}

/// [repeat `*`] const, which begins with a name
fn name_value(alloc: Global, reader: &mut Reader<'_>) -> Result<DataValue, Unread>
    ensures value { Reads (read 0 parts.name_value reader.old) result reader.new }
    ensures within { length reader.new ≤ length reader.old }
{
    let name = reader.name()?;
    let constant = repeated(alloc, reader)?;
    let copy = name.copy();
    Ok(value_of(Repeat::Named(name), DataConstant::Named(copy), constant))
}

/// const, which begins with neither digits nor a name
fn other_value(alloc: Global, reader: &mut Reader<'_>) -> Result<DataValue, Unread>
    ensures value { Reads (read 0 parts.other_value reader.old) result reader.new }
    ensures within { length reader.new ≤ length reader.old }
{
    let constant = other_constant(alloc, reader)?;
    Ok(DataValue {
        repeat: None,
        constant,
    })
}

/// [repeat `*`] const, repeat: digits; name (ANSI X3.9-1978, section 9.1)
fn data_value(alloc: Global, reader: &mut Reader<'_>) -> Result<DataValue, Unread>
    ensures value { Reads (read 0 parts.data_value reader.old) result reader.new }
    ensures within { length reader.new ≤ length reader.old }
{
    if sees_digit(reader) {
        return digits_value(alloc, reader);
    }
    if sees_letter(reader) {
        return name_value(alloc, reader);
    }
    other_value(alloc, reader)
}

/// [repeat `*`] const
pub struct AValue;

impl Production for AValue {
    type Tree = DataValue;

    ghost reading = { λ depth. read depth parts.data_value };

    fn read(alloc: Global, reader: &mut Reader<'_>, depth: usize) -> Result<DataValue, Unread> {
        data_value(alloc, reader)
    }
}

/// list(ref) `/` list([repeat `*`] const) `/`, without substrings (ANSI X3.9-1978, section 9.1)
pub fn data_group(alloc: Global, reader: &mut Reader<'_>, depth: usize) -> Result<DataGroup, Unread>
    ensures value { Reads (read depth parts.data_group reader.old) result reader.new }
    ensures within { length reader.new ≤ length reader.old }
{
    let targets = list::<AWholeRef>(alloc, reader, depth)?;
    expect_word(reader, b"/".as_slice())?;
    let values = list::<AValue>(alloc, reader, depth)?;
    expect_word(reader, b"/".as_slice())?;
    Ok(DataGroup { targets, values })
}

/// [`,`] and a group after the first
fn later_group(alloc: Global, reader: &mut Reader<'_>, depth: usize) -> Result<DataGroup, Unread>
    ensures value { Reads (read depth parts.later_group reader.old) result reader.new }
    ensures within { length reader.new ≤ length reader.old }
{
    reader.eat_word(b",".as_slice());
    data_group(alloc, reader, depth)
}

/// [`,`] and a group after the first
pub struct ALaterGroup;

impl Production for ALaterGroup {
    type Tree = DataGroup;

    ghost reading = { λ depth. read depth parts.later_group };

    fn read(alloc: Global, reader: &mut Reader<'_>, depth: usize) -> Result<DataGroup, Unread> {
        later_group(alloc, reader, depth)
    }
}

/// groups list(ref) `/` list([repeat `*`] const) `/`, with [`,`] between (ANSI X3.9-1978, section 9.1)
pub fn data_groups(
    alloc: Global,
    reader: &mut Reader<'_>,
    depth: usize,
) -> Result<Items<DataGroup>, Unread>
    ensures value { Reads (read depth parts.data_groups reader.old) result reader.new }
    ensures within { length reader.new ≤ length reader.old }
{
    let first = data_group(alloc, reader, depth)?;
    let others = many::<ALaterGroup>(alloc, reader, depth)?;
    Ok(with_first(alloc, first, others)?)
}
