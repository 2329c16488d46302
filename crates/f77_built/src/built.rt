//! The first statement of a file that isn't built, or with which its storage passes the limit.
ghost use Rattle.std.specs.Prelude.{◌≡◌, ◌<◌, ◌^◌, length, IfOk, not};
ghost use Rattle.f77_ast.specs.Refusal.{first_of};
ghost use Rattle.f77_built.specs.Built as spec;

use crate::declared::declares_built;
use crate::meaning::statement_has_meaning;
use crate::past::past_limit;
use f77_ast::entities::Entities;
use f77_ast::program::{Listed, Unit};
use f77_ast::refusal::{Refusal, sooner};
use f77_ast::rule::Rule;
use f77_ast::stmt::Stmt;
use f77_uses::breaks::refused_if;
use hyb_base::no_memory::NoMemory;
use std::alloc::Global;

/// Whether a statement of a unit is built: what it declares is, and it has a meaning in the layout of the entities.
fn is_built(units: &[Unit], entities: &Entities, unit: u32, stmt: &Stmt) -> bool
    ensures { result ≡ spec.is_built units.now entities.now unit stmt.now }
{
    declares_built(entities, unit, stmt) && statement_has_meaning(units, entities, unit, stmt)
}

/// The first statement of a unit that isn't built, by line.
fn unbuilt_in(units: &[Unit], entities: &Entities, unit: u32, listing: &[Listed]) -> Option<Refusal>
    ensures { result ≡ first_of (spec.unbuilt_in units.now entities.now unit listing.now) }
{
    let mut first = None;
    for listed in listing {
        let unbuilt = !is_built(units, entities, unit, &listed.stmt);
        first = sooner(first, refused_if(unbuilt, listed, Rule::LeftOut));
    }
    first
}

/// The first statement of all units that isn't built, by line.
fn unbuilt_among(units: &[Unit], entities: &Entities) -> Option<Refusal>
    requires few_units { length units.now < 2 ^ 32 }
    ensures { result ≡ first_of (spec.unbuilt_from units.now entities.now 0 units.now) }
{
    let mut first = None;
    for (number, unit) in units.iter().enumerate() {
        let found = unbuilt_in(units, entities, number as u32, unit.listing.as_slice());
        first = sooner(first, found);
    }
    first
}

/// The first refusal, by code 21, of a file whose names keep the rules and give these entities: a statement that isn't built,
/// or the one in which the first entity past the limit on storage is, whichever has the lesser line.
///
/// None exactly where all is built. `NoMemory` where no memory was to be had.
pub fn first_unbuilt(
    alloc: Global,
    units: &[Unit],
    entities: &Entities,
) -> Result<Option<Refusal>, NoMemory>
    requires few_units { length units.now < 2 ^ 32 }
    ensures { IfOk result (λ first. first ≡ spec.unbuilt_of units.now entities.now) }
{
    let statements = unbuilt_among(units, entities);
    let storage = past_limit(alloc, units, entities)?;
    Ok(sooner(statements, storage))
}
