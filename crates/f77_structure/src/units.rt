//! Program units: how the statements of a file are cut into them, and their statements by place
//! (ANSI X3.9-1978, section 2.4).
ghost use Rattle.std.specs.Prelude.{◌≡◌, ◌++◌, ◌+◌, ◌<◌, ◌≤◌, ◌^◌, IfOk, OnSome, length, map, slice_get};
ghost use Rattle.std.specs.Option.{option_copied, option_and_then};
ghost use Rattle.f77_structure.specs.Units.{is_main, main_unit, name_of, unit_of, without_end, units_of, statement_at, source_line, first_executable, next_place};

use crate::statements::{begins_subprogram, header_name, is_end, is_executable};
use f77_ast::code::Code;
use f77_ast::name::Name;
use f77_ast::program::{Listed, Listing, Program, Unit, Units};
use hyb_base::no_memory::NoMemory;
use std::alloc::Global;

/// Whether a unit is a main unit: its first statement isn't SUBROUTINE or FUNCTION.
pub fn is_main(listing: &[Listed]) -> bool
    ensures { result ≡ is_main listing.now }
{
    match listing.first() {
        None => true,
        Some(first) => !begins_subprogram(&first.stmt),
    }
}

/// The name of a unit; a main unit without PROGRAM has none.
fn name_of(listing: &[Listed]) -> Option<Name>
    ensures { result ≡ name_of listing.now }
{
    match listing.first() {
        None => None,
        Some(first) => header_name(&first.stmt),
    }
}

/// A unit of these statements.
fn unit_of(alloc: Global, listing: Listing) -> Unit
    ensures { result ≡ unit_of listing }
{
    Unit {
        name: name_of(listing.as_slice()),
        listing,
        code: Code::new(alloc),
    }
}

/// The units of a file.
pub fn units_of(alloc: Global, statements: Listing) -> Result<Units, NoMemory>
    ensures { IfOk result (λ units. units ≡ units_of statements) }
{
    let mut units = Units::new(alloc);
    let mut listing = Listing::new(alloc);
    for listed in statements.into_vec() {
        let ends = is_end(&listed.stmt);
        listing.push(listed)?;
        if ends {
            units.push(unit_of(alloc, listing))?;
            listing = Listing::new(alloc);
        }
    }
    add_last(alloc, units, listing)
}

/// The units with one more of the statements after the last END, where there are any.
fn add_last(alloc: Global, mut units: Units, listing: Listing) -> Result<Units, NoMemory>
    ensures { IfOk result (λ all. all ≡ units ++ map unit_of (without_end listing)) }
{
    if listing.is_empty() {
        return Ok(units);
    }
    units.push(unit_of(alloc, listing))?;
    Ok(units)
}

/// The place of the main unit among some units, from 0; their number where there is none.
pub fn main_unit(units: &[Unit]) -> usize
    ensures { result ≡ main_unit units.now }
{
    for (place, unit) in units.iter().enumerate() {
        if is_main(unit.listing.as_slice()) {
            return place;
        }
    }
    units.len()
}

/// The place of the first executable statement of some statements, from 0; their number where there is none.
pub fn first_executable(listing: &[Listed]) -> usize
    ensures value { result ≡ first_executable listing.now }
    ensures within { result ≤ length listing.now }
{
    for (place, listed) in listing.iter().enumerate() {
        if is_executable(&listed.stmt) {
            return place;
        }
    }
    listing.len()
}

/// The place at which control goes on after the statement at a place: that of the next executable statement, since DATA takes no step.
pub fn next_place(listing: &[Listed], at: usize) -> usize
    requires { at < length listing.now }
    ensures { result ≡ next_place listing.now at }
{
    at + 1 + first_executable(&listing[at + 1..])
}

/// The statement at a place of a unit, both counted from 0: none exactly where there is no such unit or place.
pub fn statement_at(program: &Program, unit: u32, at: usize) -> Option<&Listed>
    ensures listed { option_copied result ≡ statement_at program.now unit at }
    ensures after { OnSome result (at + 1 < 2 ^ 64) }
{
    statement_of_unit(program.units.as_slice(), unit, at)
}

/// The statement at a place of a unit, looked for in the units.
fn statement_of_unit(units: &[Unit], unit: u32, at: usize) -> Option<&Listed>
    ensures listed { option_copied result ≡ option_and_then (λ entered. slice_get entered.listing at) (slice_get units.now unit) }
    ensures after { OnSome result (at + 1 < 2 ^ 64) }
{
    units.get(unit as usize)?.listing.as_slice().get(at)
}

/// The initial line of the statement at a place of a unit; 0 where there is none.
pub fn source_line(program: &Program, unit: u32, at: usize) -> u32
    ensures { result ≡ source_line (statement_at program.now unit at) }
{
    match statement_at(program, unit, at) {
        None => 0,
        Some(listed) => listed.card.line,
    }
}
