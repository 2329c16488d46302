//! What is broken in the kinds and numbers of a file.
ghost use Rattle.std.specs.Prelude.{◌≡◌, IfOk};
ghost use Rattle.f77_ast.specs.Refusal.{first_of};
ghost use Rattle.f77_kinds.specs.Breaks as spec;
ghost use Rattle.f77_kinds.specs.FirstBreaks.{AreFirst};
ghost use Rattle.f77_leaves.specs.Declarations.{declarations_of};
ghost use Rattle.f77_uses.specs.Tables.{told_by};

use crate::letters::letters_break;
use crate::refused::refused_if;
use crate::statements::stmt_breach;
use f77_ast::program::{Listed, Unit};
use f77_ast::refusal::{Refusal, sooner};
use f77_ast::rule::Rule;
use f77_uses::tables::Tables;
use f77_uses::unit_tables::declarations;
use hyb_base::no_memory::NoMemory;
use std::alloc::Global;

/// The first statements of a unit that break the two rules.
#[derive(Clone, Copy, Debug, PartialEq, Eq)]
struct FirstBreaks {
    /// By something of a kind or form that its place doesn't take.
    clash: Option<Refusal>,
    /// By a wrong number of subscripts, arguments or dimensions.
    miscount: Option<Refusal>,
}

/// The first statements of a unit that break the two rules, but for the letters of IMPLICIT.
fn first_breaks(unit: &[Listed], tables: &Tables) -> FirstBreaks
    ensures { AreFirst (told_by tables.now) unit.now result }
{
    let mut clash = None;
    let mut miscount = None;
    for listed in unit {
        let breach = stmt_breach(tables, &listed.stmt);
        clash = sooner(clash, refused_if(breach.clash, listed, Rule::TypeClash));
        miscount = sooner(
            miscount,
            refused_if(breach.miscount, listed, Rule::ArgumentCount),
        );
    }
    FirstBreaks { clash, miscount }
}

/// What is broken first in the kinds and numbers of a unit, by line and then by code, where these are its tables.
pub fn unit_break(
    alloc: Global,
    unit: &[Listed],
    tables: &Tables,
) -> Result<Option<Refusal>, NoMemory>
    requires { told_by tables.now ≡ declarations_of unit.now }
    ensures { IfOk result (λ first. first ≡ first_of (spec.breaks_in unit.now)) }
{
    let breaks = first_breaks(unit, tables);
    let letters = letters_break(alloc, unit)?;
    let clash = sooner(breaks.clash, letters);
    Ok(sooner(clash, breaks.miscount))
}

/// What is broken first in the kinds and numbers of a file, by line and then by code.
///
/// 31. An operand, or an argument of an intrinsic function, of a kind that isn't taken there; a relation of two kinds or of
///     logical values; something else than an INTEGER or a LOGICAL where one is due; an assignment or a PARAMETER of two
///     kinds; a target, DO variable or item of READ that can't be one; an array's name alone, or a substring, where there may
///     be none; letters of IMPLICIT twice in a unit, or in wrong order.
/// 33. More or fewer subscripts than bounds; a wrong number of arguments of an intrinsic function; more than seven bounds.
pub fn kinds_break(alloc: Global, units: &[Unit]) -> Result<Option<Refusal>, NoMemory>
    ensures { IfOk result (λ first. first ≡ first_of (spec.breaks_among units.now)) }
{
    let mut first = None;
    for unit in units {
        let listing = unit.listing.as_slice();
        let declared = declarations(alloc, listing)?;
        first = sooner(first, unit_break(alloc, listing, &declared.tables)?);
    }
    Ok(first)
}
