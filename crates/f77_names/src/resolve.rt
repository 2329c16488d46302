//! The names of a file: its entities, or what is broken first.
ghost use Rattle.std.specs.Prelude.{◌≡◌, ◌<◌, ◌^◌, length, Ok, Err, IfOk, IsErrOf};
ghost use Rattle.f77_ast.specs.Refusal.{first_of};
ghost use Rattle.f77_ast.specs.declared.refusal.Refusal.{Refusal};
ghost use Rattle.f77_names.specs.Resolve as spec;

use crate::entities::entities_of;
use f77_ast::entities::Entities;
use f77_ast::program::Unit;
use f77_ast::refusal::{FrontError, Refusal, sooner};
use f77_due::lacking::constants_break;
use f77_kinds::kinds_break::kinds_break;
use f77_uses::names::names_break;
use hyb_base::no_memory::NoMemory;
use std::alloc::Global;

/// What is broken first in the names of a file, by line and then by code.
fn first_break(alloc: Global, units: &[Unit]) -> Result<Option<Refusal>, NoMemory>
    ensures { IfOk result (λ first. first ≡ first_of (spec.breaks_of units.now)) }
{
    let uses = names_break(alloc, units)?;
    let kinds = kinds_break(alloc, units)?;
    let lacking = constants_break(alloc, units)?;
    let names = sooner(uses, kinds);
    Ok(sooner(names, lacking))
}

/// The entities of a file (ANSI X3.9-1978, sections 2.5 to 2.8, 4, 5, 6, 8, 9.1 and 18): unit by unit, and in a unit by the
/// name's first appearance in its text.
///
/// Refused with the first of these, by line and then by code; the line is a statement's initial line.
/// 30. A statement in which there is a variable, array, dummy argument, result or constant without a type.
/// 31. A statement with something of a type or form that its place doesn't take.
/// 33. A wrong number of subscripts or of arguments of an intrinsic function, or more than seven bounds.
/// 34. A statement in which a constant is due, and there is none, or one without a value.
/// 35. A second unit of a name; a second declaration of its sort, or a second use, of a name in a unit.
/// 37. In the range of a DO, a statement that gives its variable a value.
///
/// `NoMemory` where no memory was to be had.
pub fn resolve(alloc: Global, units: &[Unit]) -> Result<Entities, FrontError>
    requires { length units.now < 2 ^ 32 }
    ensures accepted { IfOk result (λ entities. spec.resolve_of units.now ≡ Ok entities) }
    ensures refused { (refusal : Refusal) → IsErrOf result (FrontError.Refused refusal) → spec.resolve_of units.now ≡ Err refusal }
{
    match first_break(alloc, units)? {
        None => Ok(entities_of(alloc, units)?),
        Some(refusal) => Err(FrontError::Refused(refusal)),
    }
}
