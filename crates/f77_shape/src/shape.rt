//! The shape of a file.
ghost use Rattle.std.specs.Prelude.{◌≡◌, ◌++◌, Ok, Err, IfOk, IsErrOf};
ghost use Rattle.f77_ast.specs.Refusal.{first_of};
ghost use Rattle.f77_shape.specs.Limits.{statement_breaks};
ghost use Rattle.f77_shape.specs.Program.{end_breaks};
ghost use Rattle.f77_ast.specs.declared.refusal.Refusal.{Refusal};
ghost use Rattle.f77_shape.specs.Shape.{shape_of, unless_refused, breaks_in, breaks_among};

use crate::blocks::{misplaced_part, unended_if};
use crate::jumps::jump_in;
use crate::labels::{double_label, missing_label};
use crate::limits::{too_many_names, too_many_statements, too_many_units};
use crate::order::wrong_order;
use crate::program::{bad_end, bad_main};
use crate::ranges::bad_range;
use crate::unit_tables::unit_tables;
use f77_ast::program::{Listed, Listing, Unit, Units};
use f77_ast::refusal::{FrontError, Refusal, sooner};
use f77_structure::units::units_of;
use hyb_base::no_memory::NoMemory;
use std::alloc::Global;

/// The units of a file, from its statements (ANSI X3.9-1978, sections 2.4, 3.4, 3.5 and 11). Their code isn't made yet.
///
/// A file is cut into units after each END. Refused with the first of these, by line and then by code; the line is a
/// statement's initial line.
/// 50. A label that no executable statement of the unit has.
/// 51. A label that an earlier statement of the unit has.
/// 52. A DO whose terminal statement isn't after it, or may be none; whose range crosses another; or that is
///     in other IF blocks than its terminal statement.
/// 53. An ELSE IF, ELSE or END IF without its IF, an ELSE IF or ELSE after an ELSE of the same IF, or an IF with THEN
///     without its END IF.
/// 54. No main unit, at line 1; the first statement of a second main unit; the last statement of a unit without END, at
///     line 1 in a file of one statement.
/// 55. A label of a GO TO or arithmetic IF in a DO range or IF block that doesn't hold the jump.
/// 56. The first statement past the limit on statements, the first statement of the first unit past that on units, and
///     the statement at which the number of names, each counted once in each unit in which it is, passes that on names.
/// 57. A statement after one before which it should be, or a RETURN in a main unit.
///
/// `NoMemory` where no memory was to be had.
pub fn shape(alloc: Global, statements: Listing) -> Result<Units, FrontError>
    ensures accepted { IfOk result (λ units. shape_of statements ≡ Ok units) }
    ensures refused { (refusal : Refusal) → IsErrOf result (FrontError.Refused refusal) → shape_of statements ≡ Err refusal }
{
    let of_statements = statements_break(statements.as_slice());
    let units = units_of(alloc, statements)?;
    let of_units = units_break(alloc, units.as_slice())?;
    let first = sooner(of_statements, of_units);
    unless_refused(first, units)
}

/// The units, where nothing is refused.
fn unless_refused(first: Option<Refusal>, units: Units) -> Result<Units, FrontError>
    ensures accepted { IfOk result (λ all. unless_refused first units ≡ Ok all) }
    ensures refused { (refusal : Refusal) → IsErrOf result (FrontError.Refused refusal) → unless_refused first units ≡ Err refusal }
{
    match first {
        None => Ok(units),
        Some(refusal) => Err(FrontError::Refused(refusal)),
    }
}

/// The first refusal of the statements of a file as a whole.
fn statements_break(statements: &[Listed]) -> Option<Refusal>
    ensures { result ≡ first_of (end_breaks statements.now ++ statement_breaks statements.now) }
{
    sooner(bad_end(statements), too_many_statements(statements))
}

/// The first refusal of the units of a file.
fn units_break(alloc: Global, units: &[Unit]) -> Result<Option<Refusal>, NoMemory>
    ensures { IfOk result (λ first. first ≡ first_of (breaks_among units.now)) }
{
    let mut first = sooner(bad_main(units), too_many_units(units));
    first = sooner(first, too_many_names(alloc, units)?);
    for unit in units {
        first = sooner(first, unit_break(alloc, unit.listing.as_slice())?);
    }
    Ok(first)
}

/// The first refusal of the statements of a unit.
fn unit_break(alloc: Global, unit: &[Listed]) -> Result<Option<Refusal>, NoMemory>
    ensures { IfOk result (λ first. first ≡ first_of (breaks_in unit.now)) }
{
    let places = unit_tables(alloc, unit)?;
    let missing = missing_label(unit, &places.targets);
    let double = double_label(alloc, unit)?;
    let range = bad_range(unit, &places);
    let part = misplaced_part(alloc, unit)?;
    let unended = unended_if(unit);
    let jump = jump_in(unit, &places);
    let order = wrong_order(unit);
    let labels = sooner(missing, double);
    let ranges = sooner(labels, range);
    let parts = sooner(ranges, part);
    let blocks = sooner(parts, unended);
    let jumps = sooner(blocks, jump);
    Ok(sooner(jumps, order))
}
