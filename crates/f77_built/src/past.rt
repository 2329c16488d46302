//! Where storage passes its limit.
ghost use Rattle.std.specs.Prelude.{◌≡◌, IfOk, find};
ghost use Rattle.std.specs.List.{list_any};
ghost use Rattle.std.specs.Option.{option_copied};
ghost use Rattle.f77_ast.specs.Refusal.{first_of};
ghost use Rattle.f77_built.specs.Built as spec;
ghost use Rattle.f77_structure.specs.Units.{listing_of};
ghost use Rattle.f77_uses.specs.Uses.{on_name};

use f77_ast::entities::Entities;
use f77_ast::name::Name;
use f77_ast::program::{Entity, Listed, Unit};
use f77_ast::refusal::Refusal;
use f77_ast::rule::Rule;
use f77_layout::units::{more_units, own_units};
use f77_leaves::leaves::{Leaf, leaves_of};
use hyb_base::no_memory::NoMemory;
use std::alloc::Global;

/// The first entity with which the storage units are more than there may be.
fn first_past(entities: &Entities) -> Option<&Entity>
    ensures { option_copied result ≡ spec.first_past 0 entities.now }
{
    let mut total: u32 = 0;
    for number in 0..entities.len() {
        match entities.get(number) {
            None => return None,
            Some(entity) => match more_units(total, own_units(entity)) {
                None => return Some(entity),
                Some(more) => total = more,
            },
        }
    }
    None
}

/// Whether what is in a statement is a name.
fn is_name(name: &Name, leaf: &Leaf) -> bool
    ensures { result ≡ on_name (spec.is_of_name name.now) leaf.now }
{
    match leaf {
        Leaf::Literal => false,
        Leaf::Text(_) => false,
        Leaf::Named(mention) => *name == mention.name,
    }
}

/// Whether a name is among what is in a statement.
fn has_name(name: &Name, leaves: &[Leaf]) -> bool
    ensures { result ≡ list_any (on_name (spec.is_of_name name.now)) leaves.now }
{
    leaves.iter().any(|leaf| is_name(name, leaf))
}

/// Whether a name is in a statement.
fn names(alloc: Global, name: &Name, listed: &Listed) -> Result<bool, NoMemory>
    ensures { IfOk result (λ has. has ≡ spec.names name.now listed.now) }
{
    let leaves = leaves_of(alloc, &listed.stmt)?;
    Ok(has_name(name, leaves.as_slice()))
}

/// The line of the first statement of a unit in which a name is; 0 where it is in none.
fn first_line(alloc: Global, name: &Name, listing: &[Listed]) -> Result<u32, NoMemory>
    ensures { IfOk result (λ line. line ≡ spec.first_line name.now listing.now) }
{
    for listed in listing {
        if names(alloc, name, listed)? {
            return Ok(listed.card.line);
        }
    }
    Ok(0)
}

/// The line of the first statement in which an entity is.
fn line_of(alloc: Global, units: &[Unit], entity: &Entity) -> Result<u32, NoMemory>
    ensures { IfOk result (λ line. line ≡ spec.first_line entity.now.name (listing_of units.now entity.now.unit)) }
{
    match units.get(entity.unit as usize) {
        None => Ok(0),
        Some(unit) => first_line(alloc, &entity.name, unit.listing.as_slice()),
    }
}

/// The refusal of storage past its limit, at the first statement in which the first entity past it is.
pub fn past_limit(
    alloc: Global,
    units: &[Unit],
    entities: &Entities,
) -> Result<Option<Refusal>, NoMemory>
    ensures { IfOk result (λ refusal. refusal ≡ first_of (spec.past_limit units.now (spec.first_past 0 entities.now))) }
{
    match first_past(entities) {
        None => Ok(None),
        Some(entity) => {
            let line = line_of(alloc, units, entity)?;
            Ok(Some(Refusal::new(line, Rule::LeftOut)))
        }
    }
}
