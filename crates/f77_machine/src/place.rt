//! What references stand for: variables and elements of arrays (ANSI X3.9-1978, sections 5.1.1 and 5.4).
ghost use Rattle.std.specs.Prelude.{◌≡◌, ◌+◌, ◌<◌, ◌≤◌, ◌^◌, IfSome, IsTrue, Some, length};
ghost use Rattle.std.specs.Option.{option_copied};
ghost use Rattle.f77_ast.specs.Entity.{entity_in};
ghost use Rattle.f77_structure.specs.HasMeaning.{is_integer_variable, is_integer_vector};
ghost use Rattle.f77_structure.specs.Storage.{IsStorage, LiesIn, address_of_variable, address_of_element, start_of, storage_units_of};
ghost use Rattle.f77_meaning.specs.Demand.{Setting, place_by, place_of};
ghost use Rattle.f77_machine.specs.Evaluated.{as_located, located_demand, Asks, GivesIntegerBelow};

use crate::evaluated::Evaluated;
use f77_ast::expr::Kind;
use f77_ast::fault::Fault;
use f77_ast::name::Name;
use f77_ast::program::{Entity, Layout};
use f77_structure::storage::{address_of_element, address_of_variable};

/// A variable, or an element of an array.
#[derive(Clone, Copy, Debug)]
pub struct Located {
    /// Its type.
    pub kind: Kind,
    /// Its first address.
    pub address: u32,
    /// The length of a character.
    pub len: u32,
}

/// The entity of a name in a unit.
pub fn entity<'l>(layout: &'l Layout, unit: u32, name: &Name) -> Option<&'l Entity>
    requires storage { IsStorage layout.now }
    ensures found { option_copied result ≡ entity_in layout.now.entities unit name.now }
    ensures lies { IfSome result (λ e. LiesIn (length layout.now.first) layout.now.regions e.now) }
{
    let found = layout.entities.find(unit, name)?;
    Some(found)
}

/// The place of an entity at an address.
fn place_of(entity: &Entity, address: u32) -> Located
    ensures place { (s : Setting) → as_located s.program.layout result ≡ place_of s entity.now address }
    ensures kind { result.kind ≡ entity.now.kind }
    ensures address { result.address ≡ address }
{
    Located {
        kind: entity.kind,
        address,
        len: entity.len,
    }
}

/// A variable; what has a dimension is none.
pub fn variable<'a>(entity: &Entity, rest: &'a [i64]) -> Evaluated<'a, Located>
    requires meaning { IsTrue (is_integer_variable (Some entity.now)) }
    ensures value { (s : Setting) → located_demand s.program.layout result ≡ place_by s entity.now (address_of_variable entity.now) rest.now }
    ensures asks { Asks 0 0 (length rest.now) result }
    ensures lies { GivesIntegerBelow (start_of entity.now + storage_units_of entity.now) result }
{
    match address_of_variable(entity) {
        Some(address) => Evaluated::Gives(place_of(entity, address), rest),
        None => Evaluated::Fails(Fault::Subscript),
    }
}

/// The element of a subscript; one outside the bounds is a fault.
pub fn element<'a>(entity: &Entity, subscript: i64, rest: &'a [i64]) -> Evaluated<'a, Located>
    requires meaning { IsTrue (is_integer_vector (Some entity.now)) }
    requires within { start_of entity.now + storage_units_of entity.now ≤ 2 ^ 32 }
    ensures value { (s : Setting) → located_demand s.program.layout result ≡ place_by s entity.now (address_of_element entity.now subscript) rest.now }
    ensures asks { Asks 0 0 (length rest.now) result }
    ensures lies { GivesIntegerBelow (start_of entity.now + storage_units_of entity.now) result }
{
    match address_of_element(entity, subscript) {
        Some(address) => Evaluated::Gives(place_of(entity, address), rest),
        None => Evaluated::Fails(Fault::Subscript),
    }
}
