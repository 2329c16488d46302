//! The parts of DATA.

use crate::declarations::show_references;
use crate::exprs::{show_characters, show_truth};
use crate::lists::show_comma;
use f77_ast::data::{DataConstant, DataGroup, DataValue, Repeat};
use hyb_base::bytes::Bytes;
use hyb_base::decimal::print_i64;
use hyb_base::no_memory::NoMemory;
use sqlite_items::Items;

/// Shows a constant: `-1`, `true`, `"X"` or `N`.
fn show_constant(constant: &DataConstant, into: &mut Bytes) -> Result<(), NoMemory> {
    match constant {
        DataConstant::Int(value) => print_i64(*value, into),
        DataConstant::Truth(value) => show_truth(*value, into),
        DataConstant::Chars(characters) => show_characters(characters, into),
        DataConstant::Named(name) => into.push_slice(name.as_slice()),
    }
}

/// Shows how often a constant is repeated: `3*` or `N*`.
fn show_repeat(repeat: &Repeat, into: &mut Bytes) -> Result<(), NoMemory> {
    match repeat {
        Repeat::Digits(times) => print_i64(*times, into)?,
        Repeat::Named(name) => into.push_slice(name.as_slice())?,
    }
    into.push(b'*')
}

/// Shows a value: `0`, or `3*0` where it is repeated.
fn show_value(value: &DataValue, into: &mut Bytes) -> Result<(), NoMemory> {
    if let Some(repeat) = &value.repeat {
        show_repeat(repeat, into)?;
    }
    show_constant(&value.constant, into)
}

/// Shows the values of a group: `/1,3*0/`.
fn show_values(values: &Items<DataValue>, into: &mut Bytes) -> Result<(), NoMemory> {
    into.push(b'/')?;
    for (place, value) in values.as_slice().iter().enumerate() {
        show_comma(place, into)?;
        show_value(value, into)?;
    }
    into.push(b'/')
}

/// Shows the groups of DATA, each after a blank: ` A,B[1]/1,3*0/ L/true/`.
pub fn show_groups(groups: &Items<DataGroup>, into: &mut Bytes) -> Result<(), NoMemory> {
    for group in groups.as_slice() {
        into.push(b' ')?;
        show_references(&group.targets, into)?;
        show_values(&group.values, into)?;
    }
    Ok(())
}
