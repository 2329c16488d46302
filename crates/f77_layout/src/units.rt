//! How much storage entities take.
ghost use Rattle.std.specs.Prelude.{◌≡◌, ◌≤◌, ◌+◌};
ghost use Rattle.f77_structure.specs.Storage.{extent_by, is_stored, storage_units_by};
ghost use Rattle.f77_ast.specs.Limits.{most_storage_units};
ghost use Rattle.f77_layout.specs.Layout as spec;

use f77_ast::entities::Entities;
use f77_ast::limits::MOST_STORAGE_UNITS;
use f77_ast::program::{Entity, Place};
use f77_ast::specification::Bound;
use f77_structure::storage::{Span, span_of};

/// Whether it has an address.
pub fn is_stored(place: &Place) -> bool
    ensures { result ≡ is_stored place.now }
{
    match place {
        Place::Stored(_) => true,
        Place::Dummy(_) => false,
        Place::Constant(_) => false,
    }
}

/// The number of elements between bounds that may not be numbers.
fn extent_by(span: Option<Span>) -> u128
    ensures { result ≡ extent_by span }
{
    match span {
        None => 0,
        Some(span) => span.extent(),
    }
}

/// How many storage units an entity of such dimensions takes.
pub fn storage_units_by(bounds: &[Bound]) -> u128
    ensures { result ≡ storage_units_by bounds.now }
{
    match bounds {
        [] => 1,
        [bound] => extent_by(span_of(bound)),
        [_, _, ..] => 0,
    }
}

/// How many storage units an entity takes for itself: none where it isn't stored.
pub fn own_units(entity: &Entity) -> u128
    ensures { result ≡ spec.own_units entity.now }
{
    if is_stored(&entity.place) {
        storage_units_by(entity.bounds.as_slice())
    } else {
        0
    }
}

/// How many storage units the entity of a number takes.
pub fn units_at(entities: &Entities, number: usize) -> u128
    ensures { result ≡ spec.units_at entities.now number }
{
    match entities.get(number) {
        None => 0,
        Some(entity) => own_units(entity),
    }
}

/// Storage units after others, where they are no more than there may be.
pub fn more_units(before: u32, units: u128) -> Option<u32>
    requires { before ≤ most_storage_units }
    ensures { result ≡ spec.limited (before + units) }
{
    if units <= u128::from(MOST_STORAGE_UNITS - before) {
        Some(before + units as u32)
    } else {
        None
    }
}

/// The storage units of all entities, where they are no more than there may be.
pub fn total_units(entities: &Entities) -> Option<u32>
    ensures { result ≡ spec.limited (spec.total_units entities.now) }
{
    let mut total: u32 = 0;
    for number in 0..entities.len() {
        match more_units(total, units_at(entities, number)) {
            None => return None,
            Some(more) => total = more,
        }
    }
    Some(total)
}
