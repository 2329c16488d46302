//! What is broken in the declarations and uses of the names of a file.
ghost use Rattle.std.specs.Prelude.{◌≡◌, IfOk};
ghost use Rattle.f77_ast.specs.Refusal.{first_of};
ghost use Rattle.f77_uses.specs.Breaks as spec;

use crate::doubles::second_unit;
use crate::reals::{real_name, second_use};
use crate::running::assigned_running;
use crate::unit_tables::{declarations, use_table};
use f77_ast::program::{Listed, Unit};
use f77_ast::refusal::{Refusal, sooner};
use hyb_base::no_memory::NoMemory;
use std::alloc::Global;

/// What is broken first in the declarations and uses of the names of a file, by line and then by code.
///
/// 30. A statement in which there is a variable, array, dummy argument, result or constant without a type.
/// 35. The first statement of a unit that is called as an earlier one. In a unit a second type, bound list, place in COMMON,
///     value in PARAMETER or dummy place of a name; bounds of a result, and a dummy argument named like its unit; a second
///     use of a name, at the later statement.
/// 37. In the range of a DO, an assignment, READ, DO or implied DO that gives its variable a value, also inside a logical
///     IF.
pub fn names_break(alloc: Global, units: &[Unit]) -> Result<Option<Refusal>, NoMemory>
    ensures { IfOk result (λ first. first ≡ first_of (spec.breaks_among units.now)) }
{
    let mut first = second_unit(alloc, units)?;
    for unit in units {
        first = sooner(first, unit_break(alloc, unit.listing.as_slice())?);
    }
    Ok(first)
}

/// What is broken first in the statements of a unit.
fn unit_break(alloc: Global, unit: &[Listed]) -> Result<Option<Refusal>, NoMemory>
    ensures { IfOk result (λ first. first ≡ first_of (spec.breaks_in unit.now)) }
{
    let declared = declarations(alloc, unit)?;
    let uses = use_table(alloc, unit, &declared.tables)?;
    let real = real_name(alloc, unit, &declared.tables, &uses)?;
    let second = second_use(alloc, unit, &declared.tables, &uses)?;
    let running = assigned_running(alloc, unit)?;
    let doubles = sooner(real, declared.twice);
    let names = sooner(doubles, second);
    Ok(sooner(names, running))
}
