//! The entities of the units of a file.
ghost use Rattle.std.specs.Prelude.{◌≡◌, ◌<◌, ◌^◌, IfOk, OnOk, length};
ghost use Rattle.std.specs.List.{flat_map};
ghost use Rattle.f77_due.specs.Starts.{facts_in};
ghost use Rattle.f77_due.specs.Unit.{facts_of_unit};
ghost use Rattle.f77_uses.specs.UseTables.{uses_in};
ghost use Rattle.f77_uses.specs.Uses.{leaves_in, uses_of};
ghost use Rattle.f77_names.specs.Entities as spec;
ghost use Rattle.f77_names.specs.Growing.{with_name, with_names};

use crate::entity::entity_of;
use f77_ast::entities::Entities;
use f77_ast::name::Name;
use f77_ast::program::{Listed, Unit};
use f77_due::starts::names_entity;
use f77_due::unit_facts::{UnitTables, unit_tables};
use f77_leaves::leaves::{Leaf, leaves_of};
use hyb_base::no_memory::NoMemory;
use std::alloc::Global;

/// Adds the entity of a name, unless the unit has one of it.
fn add_name(
    alloc: Global,
    unit: &UnitTables,
    number: u32,
    name: &Name,
    entities: &mut Entities,
) -> Result<(), NoMemory>
    ensures { OnOk result (entities.new ≡ with_name (facts_in unit.now) number entities.old name.now) }
{
    if entities.find(number, name).is_some() {
        return Ok(());
    }
    let entity = entity_of(alloc, unit, number, name)?;
    entities.push(entity)
}

/// Adds the entity that a leaf of a text names, if it names one.
fn add_leaf(
    alloc: Global,
    unit: &UnitTables,
    number: u32,
    leaf: &Leaf,
    entities: &mut Entities,
) -> Result<(), NoMemory>
    ensures { OnOk result (entities.new ≡ with_names (facts_in unit.now) number entities.old (spec.entity_named (uses_in unit.now.uses) leaf.now)) }
{
    match leaf {
        Leaf::Literal => Ok(()),
        Leaf::Text(_) => Ok(()),
        Leaf::Named(mention) => {
            if names_entity(&unit.uses, mention) {
                add_name(alloc, unit, number, &mention.name, entities)
            } else {
                Ok(())
            }
        }
    }
}

/// Adds the entities that are in a statement.
fn add_leaves(
    alloc: Global,
    unit: &UnitTables,
    number: u32,
    leaves: &[Leaf],
    entities: &mut Entities,
) -> Result<(), NoMemory>
    ensures { OnOk result (entities.new ≡ with_names (facts_in unit.now) number entities.old (flat_map (spec.entity_named (uses_in unit.now.uses)) leaves.now)) }
{
    for leaf in leaves {
        add_leaf(alloc, unit, number, leaf, entities)?;
    }
    Ok(())
}

/// Adds the entities of the statements of a unit.
fn add_statements(
    alloc: Global,
    unit: &UnitTables,
    number: u32,
    listing: &[Listed],
    entities: &mut Entities,
) -> Result<(), NoMemory>
    ensures { OnOk result (entities.new ≡ with_names (facts_in unit.now) number entities.old (flat_map (spec.entity_named (uses_in unit.now.uses)) (leaves_in listing.now))) }
{
    for listed in listing {
        let leaves = leaves_of(alloc, &listed.stmt)?;
        add_leaves(alloc, unit, number, leaves.as_slice(), entities)?;
    }
    Ok(())
}

/// Adds the entities of a unit.
fn add_unit(
    alloc: Global,
    number: u32,
    listing: &[Listed],
    entities: &mut Entities,
) -> Result<(), NoMemory>
    ensures { OnOk result (entities.new ≡ with_names (facts_of_unit listing.now) number entities.old (flat_map (spec.entity_named (uses_of listing.now)) (leaves_in listing.now))) }
{
    let unit = unit_tables(alloc, listing)?;
    add_statements(alloc, &unit, number, listing, entities)
}

/// The entities of the units of a file: unit by unit, and in a unit by the name's first appearance in its text.
pub fn entities_of(alloc: Global, units: &[Unit]) -> Result<Entities, NoMemory>
    requires { length units.now < 2 ^ 32 }
    ensures { IfOk result (λ entities. entities ≡ spec.entities_of units.now) }
{
    let mut entities = Entities::new(alloc);
    for (number, unit) in units.iter().enumerate() {
        add_unit(alloc, number as u32, unit.listing.as_slice(), &mut entities)?;
    }
    Ok(entities)
}
