//! Entities are given their places in storage, one behind the other.
ghost use Rattle.std.specs.Prelude.{◌≡◌, ◌≤◌, ◌<◌, ◌+◌, ◌++◌, length, IfOk, OnOk};
ghost use Rattle.f77_ast.specs.Limits.{most_storage_units};
ghost use Rattle.f77_layout.specs.Layout as spec;
ghost use Rattle.f77_layout.specs.Placing.{with_placed};

use crate::units::{is_stored, units_at};
use f77_ast::entities::Entities;
use f77_ast::program::{Place, Region, Regions};
use hyb_base::no_memory::NoMemory;
use std::alloc::Global;

/// Whether the entity of a number is stored.
fn is_stored_at(entities: &Entities, number: usize) -> bool
    ensures { result ≡ spec.is_stored_at entities.now number }
{
    match entities.get(number) {
        None => false,
        Some(entity) => is_stored(&entity.place),
    }
}

/// Places the entity of a number at an address, where it is stored.
fn place_entity(entities: &mut Entities, number: usize, address: u32)
    requires { number < length entities.old }
    ensures { entities.new ≡ with_placed entities.old number address }
{
    if is_stored_at(entities, number) {
        entities.set_place(number, Place::Stored(address));
    }
}

/// Adds the region of the entity of a number at an address, where it is stored.
fn add_region(
    entities: &Entities,
    number: usize,
    address: u32,
    units: u32,
    regions: &mut Regions,
) -> Result<(), NoMemory>
    ensures { OnOk result (regions.new ≡ regions.old ++ spec.region_if (spec.is_stored_at entities.now number) address units) }
{
    if is_stored_at(entities, number) {
        regions.push(Region {
            start: address,
            len: units,
        })?;
    }
    Ok(())
}

/// The regions of entities, each of which is placed where those before it end.
pub fn regions_of(alloc: Global, entities: &Entities) -> Result<Regions, NoMemory>
    requires { spec.total_units entities.now ≤ most_storage_units }
    ensures { IfOk result (λ regions. regions ≡ spec.regions_from 0 entities.now) }
{
    let mut regions = Regions::new(alloc);
    let mut address: u32 = 0;
    for number in 0..entities.len() {
        let units = units_at(entities, number) as u32;
        add_region(entities, number, address, units, &mut regions)?;
        address += units;
    }
    Ok(regions)
}

/// Places each stored entity where those before it end.
pub fn place_all(entities: &mut Entities)
    requires { spec.total_units entities.old ≤ most_storage_units }
    ensures { entities.new ≡ spec.entities_from 0 entities.old }
{
    let mut address: u32 = 0;
    for number in 0..entities.len() {
        let units = units_at(entities, number) as u32;
        place_entity(entities, number, address);
        address += units;
    }
}
