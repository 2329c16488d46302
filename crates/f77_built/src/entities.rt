//! What names of a unit stand for: INTEGER variables, constants and arrays of one dimension.
ghost use Rattle.std.specs.Prelude.{◌≡◌, ◌||◌, Some};
ghost use Rattle.f77_ast.specs.Entity.{entity_in};
ghost use Rattle.f77_built.specs.Declared as spec;
ghost use Rattle.f77_layout.specs.Layout.{layout_of};
ghost use Rattle.f77_structure.specs.Arrays.{if_array};
ghost use Rattle.f77_structure.specs.HasMeaning as meaning;
ghost use Rattle.f77_structure.specs.Values as values;

use f77_ast::entities::Entities;
use f77_ast::expr::Kind;
use f77_ast::name::Name;
use f77_ast::program::Entity;
use f77_layout::units::{is_stored, storage_units_by};
use f77_structure::storage::{constant_number, vector_span};

/// Whether a kind is INTEGER.
fn is_integer_kind(kind: Kind) -> bool
    ensures { result ≡ values.is_integer_kind kind }
{
    match kind {
        Kind::Integer => true,
        Kind::Logical => false,
        Kind::Character => false,
    }
}

/// Whether an entity is an INTEGER variable in storage.
fn is_integer_variable(entity: &Entity) -> bool
    ensures { result ≡ meaning.is_integer_variable (Some entity.now) }
{
    is_integer_kind(entity.kind) && is_stored(&entity.place) && entity.bounds.is_empty()
}

/// Whether an entity is an INTEGER constant.
fn is_integer_constant(entity: &Entity) -> bool
    ensures { result ≡ meaning.is_integer_constant (Some entity.now) }
{
    is_integer_kind(entity.kind)
        && constant_number(&entity.place).is_some()
        && entity.bounds.is_empty()
}

/// Whether an entity is an INTEGER array of one dimension in storage.
fn is_integer_vector(entity: &Entity) -> bool
    ensures { result ≡ meaning.is_integer_vector (Some entity.now) }
{
    is_integer_kind(entity.kind)
        && is_stored(&entity.place)
        && vector_span(entity.bounds.as_slice()).is_some()
}

/// Whether a name is that of an INTEGER variable.
pub fn names_variable(entities: &Entities, unit: u32, name: &Name) -> bool
    ensures { result ≡ meaning.is_integer_variable (entity_in (layout_of entities.now).entities unit name.now) }
{
    match entities.find(unit, name) {
        None => false,
        Some(entity) => is_integer_variable(entity),
    }
}

/// Whether a name is that of an INTEGER variable or constant.
pub fn names_number(entities: &Entities, unit: u32, name: &Name) -> bool
    ensures { result ≡ (meaning.is_integer_variable (entity_in (layout_of entities.now).entities unit name.now) || meaning.is_integer_constant (entity_in (layout_of entities.now).entities unit name.now)) }
{
    match entities.find(unit, name) {
        None => false,
        Some(entity) => is_integer_variable(entity) || is_integer_constant(entity),
    }
}

/// Whether a name is that of an INTEGER constant.
pub fn names_constant(entities: &Entities, unit: u32, name: &Name) -> bool
    ensures { result ≡ meaning.is_integer_constant (entity_in entities.now unit name.now) }
{
    match entities.find(unit, name) {
        None => false,
        Some(entity) => is_integer_constant(entity),
    }
}

/// Whether a name is that of an INTEGER array of one dimension.
pub fn names_vector(entities: &Entities, unit: u32, name: &Name) -> bool
    ensures { result ≡ meaning.is_integer_vector (entity_in (layout_of entities.now).entities unit name.now) }
{
    match entities.find(unit, name) {
        None => false,
        Some(entity) => is_integer_vector(entity),
    }
}

/// Whether a name is that of an INTEGER array of one dimension, where it is the whole of an item.
pub fn names_whole_vector(entities: &Entities, unit: u32, name: &Name) -> bool
    ensures { result ≡ meaning.is_integer_vector (if_array (entity_in (layout_of entities.now).entities unit name.now)) }
{
    names_vector(entities, unit, name)
}

/// Whether a name is that of an entity in storage.
pub fn names_kept(entities: &Entities, unit: u32, name: &Name) -> bool
    ensures { result ≡ meaning.is_kept (entity_in (layout_of entities.now).entities unit name.now) }
{
    match entities.find(unit, name) {
        None => false,
        Some(entity) => is_stored(&entity.place),
    }
}

/// Whether a name is that of an entity with storage: an array without elements has none.
pub fn takes_storage(entities: &Entities, unit: u32, name: &Name) -> bool
    ensures { result ≡ spec.takes_storage (entity_in entities.now unit name.now) }
{
    match entities.find(unit, name) {
        None => false,
        Some(entity) => storage_units_by(entity.bounds.as_slice()) >= 1,
    }
}
