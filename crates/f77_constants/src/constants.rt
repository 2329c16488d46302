//! The values of the constants of a unit (ANSI X3.9-1978, section 8.6).
ghost use Rattle.std.specs.Prelude.{◌≡◌, ◌++◌, ◌∷◌, [], ℕ, List, IfOk, OnOk, option_and_then, if◌then◌else◌};
ghost use Rattle.std.specs.Option.{is_some, option_copied, option_map};
ghost use Rattle.f77_leaves.specs.Declarations.{declarations_of};
ghost use Rattle.f77_uses.specs.Tables.{told_by};
ghost use Rattle.f77_constants.specs.Constants as spec;
ghost use Rattle.f77_constants.specs.Rounds.{settled_with, Round};
ghost use Rattle.f77_constants.specs.Values.{meant, value_in};

use crate::evaluate::value_of_option;
use crate::lengths::name_length;
use crate::naming::constant_names;
use crate::order::{Names, depth_first};
use crate::texts::{cut, of_length};
use crate::value::{Value, Values};
use f77_ast::expr::{Expr, Kind};
use f77_ast::limits::MOST_CHARACTERS;
use f77_ast::name::Name;
use f77_ast::program::Listed;
use f77_uses::tables::Tables;
use hyb_base::bytes::Bytes;
use hyb_base::no_memory::NoMemory;
use std::alloc::Global;

/// A text as its name keeps it: filled with blanks or cut to the name's length. Where there is none, no more than the
/// greatest length is kept.
fn fitted(alloc: Global, len: Option<u32>, text: &[u8]) -> Result<Bytes, NoMemory>
    ensures { IfOk result (λ kept. kept ≡ spec.fitted len text.now) }
{
    match len {
        None => cut(alloc, text, MOST_CHARACTERS as usize),
        Some(len) => of_length(alloc, text, len as usize),
    }
}

/// The value that a name of this kind and length keeps: one of another kind it doesn't take.
fn taken(
    alloc: Global,
    kind: Option<Kind>,
    len: Option<u32>,
    value: Value,
) -> Result<Option<Value>, NoMemory>
    ensures { IfOk result (λ kept. option_map meant kept ≡ spec.taken kind len (meant value)) }
{
    match (kind, value) {
        (None, _) => Ok(None),
        (Some(Kind::Integer), Value::Integer(number)) => Ok(Some(Value::Integer(number))),
        (Some(Kind::Integer), Value::Truth(_)) => Ok(None),
        (Some(Kind::Integer), Value::Chars(_)) => Ok(None),
        (Some(Kind::Logical), Value::Integer(_)) => Ok(None),
        (Some(Kind::Logical), Value::Truth(holds)) => Ok(Some(Value::Truth(holds))),
        (Some(Kind::Logical), Value::Chars(_)) => Ok(None),
        (Some(Kind::Character), Value::Integer(_)) => Ok(None),
        (Some(Kind::Character), Value::Truth(_)) => Ok(None),
        (Some(Kind::Character), Value::Chars(text)) => {
            Ok(Some(Value::Chars(fitted(alloc, len, text.as_slice())?)))
        }
    }
}

/// The value that a name keeps, where there is one.
fn taken_if(
    alloc: Global,
    kind: Option<Kind>,
    len: Option<u32>,
    value: Option<Value>,
) -> Result<Option<Value>, NoMemory>
    ensures { IfOk result (λ kept. option_map meant kept ≡ option_and_then (spec.taken kind len) (option_map meant value)) }
{
    match value {
        None => Ok(None),
        Some(value) => taken(alloc, kind, len, value),
    }
}

/// The expression that a name is, where it is a constant.
fn expression<'t>(tables: &'t Tables, name: &Name) -> Option<&'t Expr>
    ensures { option_copied result ≡ ((told_by tables.now).known name.now).value }
{
    match tables.names.find(name) {
        None => None,
        Some(known) => known.value.as_ref(),
    }
}

/// The value that a constant has by its expression, where names have these values, and lengths are read with others.
fn constant_value(
    alloc: Global,
    tables: &Tables,
    lengths: &Values,
    values: &Values,
    name: &Name,
) -> Result<Option<Value>, NoMemory>
    ensures { IfOk result (λ found. option_map meant found ≡ spec.constant_value (told_by tables.now) (spec.name_length (told_by tables.now) (value_in lengths.now)) (value_in values.now) name.now) }
{
    let value = value_of_option(alloc, expression(tables, name), values)?;
    let len = name_length(alloc, tables, name, lengths)?;
    taken_if(alloc, tables.kind_of(name), len, value)
}

/// Gives a constant its value, where it has none yet and its expression has one; whether it has one now.
fn settle(
    alloc: Global,
    tables: &Tables,
    lengths: &Values,
    values: &mut Values,
    name: &Name,
) -> Result<bool, NoMemory>
    ensures values { OnOk result ((other : List ℕ) → value_in values.new other ≡ settled_with (told_by tables.now) (spec.name_length (told_by tables.now) (value_in lengths.now)) (value_in values.old) name.now other) }
    ensures has { IfOk result (λ has. has ≡ is_some (value_in values.new name.now)) }
{
    if values.has(name) {
        return Ok(true);
    }
    match constant_value(alloc, tables, lengths, values, name)? {
        None => Ok(false),
        Some(value) => {
            let _again = values.note(name.copy(), value)?;
            Ok(true)
        }
    }
}

/// Adds a name, unless it has a value.
fn add_unless(names: &mut Names, name: &Name, has: bool) -> Result<(), NoMemory>
    ensures { OnOk result (names.new ≡ (if has then names.old else names.old ++ name.now ∷ [])) }
{
    if has {
        return Ok(());
    }
    names.push(name.copy())
}

/// Gives each of some constants its value, where it has none yet and its expression has one; those that have none now.
fn round(
    alloc: Global,
    tables: &Tables,
    lengths: &Values,
    values: &mut Values,
    names: &[Name],
) -> Result<Names, NoMemory>
    ensures { IfOk result (λ left. Round (told_by tables.now) (spec.name_length (told_by tables.now) (value_in lengths.now)) (value_in values.old) (value_in values.new) names.now left) }
{
    let mut left = Names::new(alloc);
    for name in names {
        let has = settle(alloc, tables, lengths, values, name)?;
        add_unless(&mut left, name, has)?;
    }
    Ok(left)
}

/// The values of the constants of a unit. Lengths of names are read with other values.
fn values_with(
    alloc: Global,
    unit: &[Listed],
    tables: &Tables,
    lengths: &Values,
) -> Result<Values, NoMemory>
    requires { told_by tables.now ≡ declarations_of unit.now }
    ensures { IfOk result (λ values. (name : List ℕ) → value_in values name ≡ spec.values_with unit.now (spec.name_length (declarations_of unit.now) (value_in lengths.now)) name) }
{
    let mut values = Values::new(alloc);
    let mut left = constant_names(alloc, unit)?;
    let order = depth_first(alloc, tables, left.as_slice())?;
    let _others = round(alloc, tables, lengths, &mut values, order.as_slice())?;
    'passes: loop {
        let still = round(alloc, tables, lengths, &mut values, left.as_slice())?;
        if still.len() == left.len() {
            return Ok(values);
        }
        left = still;
    }
}

/// The values of the constants of a unit.
///
/// A constant has a value where the names in its expression are constants that have one, no operation faults, and kinds agree;
/// and nothing else has one. It takes time in proportion to the text, whatever order constants are in.
pub fn values_of(alloc: Global, unit: &[Listed], tables: &Tables) -> Result<Values, NoMemory>
    requires { told_by tables.now ≡ declarations_of unit.now }
    ensures { IfOk result (λ values. (name : List ℕ) → value_in values name ≡ spec.values_of unit.now name) }
{
    let none = Values::new(alloc);
    let numbers = values_with(alloc, unit, tables, &none)?;
    values_with(alloc, unit, tables, &numbers)
}
