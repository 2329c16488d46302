//! The program of units.
ghost use Rattle.std.specs.Prelude.{◌≡◌, ◌+◌, ◌<◌, ◌^◌, length, None, Ok, Err, IfOk, IsErrOf};
ghost use Rattle.f77_ast.specs.declared.refusal.Refusal.{Refusal};
ghost use Rattle.f77_front.specs.Front.{later_refusal, program_with, program_of};
ghost use Rattle.f77_structure.specs.Units.{statement_count};

use f77_ast::entities::Entities;
use f77_ast::program::{Program, Units};
use f77_ast::refusal::{FrontError, Refusal};
use f77_built::built::first_unbuilt;
use f77_layout::layout::layout_of;
use f77_loops::loops::loops;
use f77_names::resolve::resolve;
use f77_operands::limit::too_many_operands;
use hyb_base::no_memory::NoMemory;
use std::alloc::Global;

/// The refusal of units whose names keep the rules, by the limit on operands, or else of what isn't built by now.
fn later_refusal(
    alloc: Global,
    units: &Units,
    entities: &Entities,
) -> Result<Option<Refusal>, NoMemory>
    requires few_units { length units.now < 2 ^ 32 }
    ensures { IfOk result (λ refusal. refusal ≡ later_refusal units.now entities.now) }
{
    match too_many_operands(alloc, units.as_slice())? {
        None => first_unbuilt(alloc, units.as_slice(), entities),
        Some(refusal) => Ok(Some(refusal)),
    }
}

/// The program of some units, all of which is built, with their entities: with its loops and its layout.
fn program_with(alloc: Global, units: Units, entities: Entities) -> Result<Program, NoMemory>
    requires few_units { length units < 2 ^ 32 }
    requires few_statements { statement_count units + 1 < 2 ^ 32 }
    requires built { later_refusal units entities ≡ None }
    ensures { IfOk result (λ program. program ≡ program_with units entities) }
{
    let loops = loops(alloc, &units)?;
    match layout_of(alloc, entities)? {
        Some(layout) => Ok(Program {
            units,
            layout,
            loops,
        }),
        None => unreachable!(),
    }
}

/// The program of some units, or the first refusal of their names, of the limit on operands, or of what isn't built by now.
pub fn program_of(alloc: Global, units: Units) -> Result<Program, FrontError>
    requires few_units { length units < 2 ^ 32 }
    requires few_statements { statement_count units + 1 < 2 ^ 32 }
    ensures accepted { IfOk result (λ program. program_of units ≡ Ok program) }
    ensures refused { (refusal : Refusal) → IsErrOf result (FrontError.Refused refusal) → program_of units ≡ Err refusal }
{
    let entities = resolve(alloc, units.as_slice())?;
    match later_refusal(alloc, &units, &entities)? {
        None => Ok(program_with(alloc, units, entities)?),
        Some(refusal) => Err(FrontError::Refused(refusal)),
    }
}
