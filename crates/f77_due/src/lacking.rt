//! Statements in which a constant is due, and there is none.
ghost use Rattle.std.specs.Prelude.{◌≡◌, IfOk};
ghost use Rattle.f77_ast.specs.Refusal.{first_of};
ghost use Rattle.f77_due.specs.Breaks as spec;
ghost use Rattle.f77_due.specs.Starts.{facts_in};
ghost use Rattle.f77_due.specs.Unit.{facts_of_unit};

use crate::due::lacks_constant;
use crate::unit_facts::{UnitTables, unit_tables};
use f77_ast::program::{Listed, Unit};
use f77_ast::refusal::{Refusal, sooner};
use f77_ast::rule::Rule;
use f77_uses::breaks::refused_if;
use hyb_base::no_memory::NoMemory;
use std::alloc::Global;

/// ConstantExpected: the first statement of a unit in which a constant is due, and there is none.
pub fn first_lacking(
    alloc: Global,
    unit: &[Listed],
    tables: &UnitTables,
) -> Result<Option<Refusal>, NoMemory>
    requires { facts_in tables.now ≡ facts_of_unit unit.now }
    ensures { IfOk result (λ first. first ≡ first_of (spec.lacking_in unit.now)) }
{
    let mut first = None;
    for listed in unit {
        let lacks = lacks_constant(alloc, tables, &listed.stmt)?;
        first = sooner(first, refused_if(lacks, listed, Rule::ConstantExpected));
    }
    Ok(first)
}

/// The first statement of a unit in which a constant is due, and there is none.
fn unit_break(alloc: Global, unit: &[Listed]) -> Result<Option<Refusal>, NoMemory>
    ensures { IfOk result (λ first. first ≡ first_of (spec.lacking_in unit.now)) }
{
    let tables = unit_tables(alloc, unit)?;
    first_lacking(alloc, unit, &tables)
}

/// The first statement of a file in which a constant is due, and there is none.
///
/// 34. Where a bound, a length, the value of a constant, a subscript in EQUIVALENCE or DATA, or a name between the slashes of
///     DATA has to be constant: one that isn't, or that has no value. A bound `*`, but the last of a dummy argument; a length
///     `(*)` of what is no dummy argument. A bound of a dummy argument that isn't made of constants, INTEGER variables that
///     are dummy arguments, and INTEGER variables in COMMON.
pub fn constants_break(alloc: Global, units: &[Unit]) -> Result<Option<Refusal>, NoMemory>
    ensures { IfOk result (λ first. first ≡ first_of (spec.lacking_among units.now)) }
{
    let mut first = None;
    for unit in units {
        first = sooner(first, unit_break(alloc, unit.listing.as_slice())?);
    }
    Ok(first)
}
