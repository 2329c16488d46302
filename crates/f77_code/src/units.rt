//! The code of a unit.
ghost use Rattle.std.specs.Prelude.{◌≡◌, ◌≤◌, ◌+◌, ◌<◌, ◌^◌, length, pos, IfOk};
ghost use Rattle.f77_meaning.specs.IsCodeOf.{IsCodeOf};
ghost use Rattle.f77_structure.specs.Loops.{loops_of};
ghost use Rattle.f77_structure.specs.Units.{listing_of, statement_count, statements_before};
ghost use Rattle.f77_code.specs.Units.{unit_code};

use crate::statements::add_statement;
use f77_ast::code::{Code, Instrs};
use f77_ast::program::{Layout, Listed, Loop, Unit};
use f77_structure::units::next_place;
use hyb_base::no_memory::NoMemory;
use hyb_base::nums::Nums;
use hyb_base::words::Words;
use std::alloc::Global;

/// A place as a number of a list. There is no memory for a place past 2 ^ 63.
fn as_number(place: usize) -> Result<i64, NoMemory>
    ensures { IfOk result (λ number. number ≡ pos place) }
{
    match i64::try_from(place) {
        Ok(number) => Ok(number),
        Err(_) => Err(NoMemory),
    }
}

/// How many statements are in the units before this one.
fn statements_before(units: &[Unit], unit: u32) -> u32
    requires few { statement_count units.now < 2 ^ 32 }
    ensures value { result ≡ statements_before units.now unit }
    ensures some { result ≤ statement_count units.now }
{
    match units {
        [] => 0,
        [first, rest @ ..] => {
            if unit == 0 {
                0
            } else {
                first.listing.len() as u32 + statements_before(rest, unit - 1)
            }
        }
    }
}

/// The code of a unit whose first statement has this number in the file.
fn unit_code(
    alloc: Global,
    loops: &[Loop],
    layout: &Layout,
    unit: u32,
    first: u32,
    listing: &[Listed],
) -> Result<Code, NoMemory>
    requires entities { length layout.now.entities ≤ 2 ^ 32 }
    requires statements { first + length listing.now < 2 ^ 32 }
    ensures { IfOk result (λ code. code ≡ unit_code loops.now layout.now unit first listing.now) }
{
    let mut instrs = Instrs::new(alloc);
    let mut starts = Nums::new(alloc);
    let mut nexts = Nums::new(alloc);
    let mut number = first;
    for (at, listed) in listing.iter().enumerate() {
        starts.push(as_number(instrs.len())?)?;
        nexts.push(as_number(next_place(listing, at))?)?;
        add_statement(loops, layout, unit, number, &listed.stmt, &mut instrs)?;
        number += 1;
    }
    Ok(Code {
        instrs,
        starts,
        nexts,
        targets: Nums::new(alloc),
        texts: Words::new(alloc),
    })
}

/// The code of a unit, by its number: `units` are those of the file, `loops` its loops, `listing` the statements of the unit and `layout`
/// the entities of the file.
///
/// `NoMemory` where no memory was to be had, and never else. The trees may be any, also those of a file that is refused: what has no meaning
/// yet gets no code, or code that ends the run.
pub fn code(
    alloc: Global,
    units: &[Unit],
    loops: &[Loop],
    listing: &[Listed],
    layout: &Layout,
    unit: u32,
) -> Result<Code, NoMemory>
    requires entities { length layout.now.entities ≤ 2 ^ 32 }
    requires listing { listing.now ≡ listing_of units.now unit }
    requires loops { loops.now ≡ loops_of units.now }
    requires statements { statement_count units.now + 1 < 2 ^ 32 }
    ensures { IfOk result (λ code. IsCodeOf (record { units = units.now; layout = layout.now; loops = loops.now }) unit code) }
{
    let first = 1 + statements_before(units, unit);
    unit_code(alloc, loops, layout, unit, first, listing)
}
