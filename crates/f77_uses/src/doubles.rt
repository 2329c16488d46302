//! Two units of one name (ANSI X3.9-1978, section 18.1.1).
ghost use Rattle.std.specs.Prelude.{◌≡◌, ◌||◌, ℕ, List, [], Some, IfOk, OnOk, if◌then◌else◌};
ghost use Rattle.std.specs.Option.{is_some};
ghost use Rattle.f77_ast.specs.Refusal.{first_of};
ghost use Rattle.f77_uses.specs.Breaks.{same_unit, second_units};
ghost use Rattle.f77_uses.specs.Firsts.{told, is_seen};
ghost use Rattle.f77_uses.specs.Refused.{first_refused};

use crate::breaks::first_refused;
use crate::firsts::Firsts;
use f77_ast::name::Name;
use f77_ast::program::Unit;
use f77_ast::refusal::{Refusal, sooner};
use f77_ast::rule::Rule;
use hyb_base::no_memory::NoMemory;
use std::alloc::Global;

/// Notes the name of a unit, if it has one, and tells whether an earlier unit has it.
fn note_again(seen: &mut Firsts<()>, name: &Option<Name>) -> Result<bool, NoMemory>
    ensures again { IfOk result (λ again. again ≡ is_seen seen.old name.now) }
    ensures noted { OnOk result ((other : List ℕ) → is_some (told seen.new other) ≡ (is_some (told seen.old other) || same_unit (Some other) name.now)) }
{
    match name {
        None => Ok(false),
        Some(name) => seen.note(name.copy(), ()),
    }
}

/// The refusal of a unit, where an earlier one has its name.
fn refused_if(again: bool, unit: &Unit) -> Option<Refusal>
    ensures { result ≡ first_of (if again then first_refused Rule.DoubleName unit.now.listing else []) }
{
    if again {
        first_refused(unit.listing.as_slice(), Rule::DoubleName)
    } else {
        None
    }
}

/// DoubleName: the first statement of the first unit that is called as an earlier one.
pub fn second_unit(alloc: Global, units: &[Unit]) -> Result<Option<Refusal>, NoMemory>
    ensures { IfOk result (λ first. first ≡ first_of (second_units [] units.now)) }
{
    let mut first = None;
    let mut seen = Firsts::new(alloc);
    for unit in units {
        let again = note_again(&mut seen, &unit.name)?;
        first = sooner(first, refused_if(again, unit));
    }
    Ok(first)
}
