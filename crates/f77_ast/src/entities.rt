//! The entities of a program, found by unit and name.
ghost use Rattle.std.specs.Prelude.{◌≡◌};

use crate::name::Name;
use crate::program::{Entity, Place};
use hyb_base::no_memory::NoMemory;
use indexmap::IndexMap;
use std::alloc::Global;
use std::marker::Model;

/// What an entity is found by: its unit's number, and its name.
#[derive(PartialEq, Eq, Hash, Drop)]
pub struct EntityKey {
    unit: u32,
    name: Name,
}

/// The entities of all units: unit by unit, in a unit by the name's first appearance.
///
/// No two of a unit have one name. An entity is found by its unit and name in constant time.
#[derive(Drop)]
pub struct Entities {
    entries: IndexMap<EntityKey, Entity>,
}

impl Model for Entities {
    ghost use Rattle.std.specs.Prelude.{List};
    ghost use Rattle.f77_ast.specs.Entity.{AreKeyed};
    ghost use Rattle.f77_ast.specs.declared.program.Entity.{Entity};
    ghost use Rattle.indexmap.specs.IndexMap.{values};
    ghost use Rattle.f77_ast.specs.contracts.expr.Expr as e;
    ghost use Rattle.std.specs.Coded.{codes};

    ghost Value = { List Entity };

    ghost coded = { Prim.hlevel (codes, e.the_row.coded) };

    ghost view = { λ e. values e.entries };

    ghost invariant = { λ e. AreKeyed e.entries.entries };
}

impl Entities {
    ghost use Rattle.std.specs.Prelude.{◌++◌, ◌∷◌, [], ◌↔◌, ◌<◌, length, slice_get, None, OnOk, OnErr, IfSome, IsTrue};
    ghost use Rattle.std.specs.Option.{option_copied};
    ghost use Rattle.f77_ast.specs.Entity.{entity_in, number_in, placed_at};

    /// No entity. It takes no memory.
    pub fn new(alloc: Global) -> Entities
        ensures { result ≡ [] }
    {
        Entities {
            entries: IndexMap::new(alloc),
        }
    }

    /// Adds an entity last; its unit has none of its name yet. After an error they are as before.
    pub fn push(&mut self, entity: Entity) -> Result<(), NoMemory>
        requires { entity_in self.old entity.unit entity.name ≡ None }
        ensures ok { OnOk result (self.new ≡ self.old ++ entity ∷ []) }
        ensures err { OnErr result (self.new ≡ self.old) }
    {
        let key = EntityKey {
            unit: entity.unit,
            name: entity.name.copy(),
        };
        self.entries.insert(key, entity)?;
        Ok(())
    }

    /// The entity of a name in a unit: none exactly where the unit has none of that name.
    pub fn find(&self, unit: u32, name: &Name) -> Option<&Entity>
        ensures { option_copied result ≡ entity_in self.now unit name.now }
    {
        let key = EntityKey {
            unit,
            name: name.copy(),
        };
        self.entries.get(&key)
    }

    /// The number of the entity of a name in a unit, its place from 0: none exactly where the unit has none of that name.
    /// It takes constant time.
    pub fn number_of(&self, unit: u32, name: &Name) -> Option<usize>
        ensures value { result ≡ number_in self.now unit name.now }
        ensures within { IfSome result (λ number. number < length self.now) }
        ensures entity { IfSome result (λ number. slice_get self.now number ≡ entity_in self.now unit name.now) }
    {
        let key = EntityKey {
            unit,
            name: name.copy(),
        };
        self.entries.get_index_of(&key)
    }

    /// Gives an entity, by its number, another place. All others stay as they are. It takes no memory.
    pub fn set_place(&mut self, number: usize, place: Place)
        requires { number < length self.old }
        ensures { self.new ≡ placed_at self.old number place }
    {
        let (_key, entity) = self.entries.pair_mut(number);
        entity.place = place;
    }

    /// The entity at a place, counted from 0: none exactly where `place >= len`.
    pub fn get(&self, place: usize) -> Option<&Entity>
        ensures { option_copied result ≡ slice_get self.now place }
    {
        let (_key, entity) = self.entries.get_index(place)?;
        Some(entity)
    }

    /// The number of entities.
    pub fn len(&self) -> usize
        ensures { result ≡ length self.now }
    {
        self.entries.len()
    }

    /// Whether there is none.
    pub fn is_empty(&self) -> bool
        ensures { IsTrue result ↔ (self.now ≡ []) }
    {
        self.entries.is_empty()
    }
}
