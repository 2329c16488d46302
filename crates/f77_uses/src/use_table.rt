//! The table of what a unit uses its names as.
ghost use Rattle.std.specs.Prelude.{◌≡◌, ◌||◌, ℕ, List, None, false, OnOk};
ghost use Rattle.std.specs.List.{list_any};
ghost use Rattle.std.specs.Option.{option_or};
ghost use Rattle.f77_uses.specs.Firsts.{told};
ghost use Rattle.f77_uses.specs.Tables.{told_by};
ghost use Rattle.f77_uses.specs.UseTables.{is_busy_in, uses_in};
ghost use Rattle.f77_uses.specs.Uses as spec;

use crate::firsts::Firsts;
use crate::tables::Tables;
use crate::uses::{Use, is_busy, is_entity_by, use_of};
use f77_ast::name::Name;
use f77_leaves::leaves::{Leaf, Mention};
use hyb_base::no_memory::NoMemory;
use std::alloc::Global;

/// What a unit uses its names as.
#[derive(Drop)]
pub struct UseTable {
    /// The first use of each name.
    firsts: Firsts<Use>,
    /// The names that are there by more than SAVE and type statements.
    busy: Firsts<()>,
}

impl UseTable {
    /// No name is used. It takes no memory.
    pub fn new(alloc: Global) -> UseTable
        ensures firsts { (name : List ℕ) → told result.firsts name ≡ None }
        ensures busy { (name : List ℕ) → is_busy_in result name ≡ false }
    {
        UseTable {
            firsts: Firsts::new(alloc),
            busy: Firsts::new(alloc),
        }
    }

    /// The first use of a name.
    pub fn first(&self, name: &Name) -> Option<Use>
        ensures { result ≡ (uses_in self.now).first name.now }
    {
        self.firsts.find(name).copied()
    }

    /// Whether a name is a variable, an array, a dummy argument, a result or a constant.
    pub fn is_entity(&self, name: &Name) -> bool
        ensures { result ≡ spec.is_entity (uses_in self.now) name.now }
    {
        is_entity_by(self.first(name), !self.busy.has(name))
    }

    /// Notes the use of a name, if it is one.
    fn note_use(&mut self, tables: &Tables, mention: &Mention) -> Result<(), NoMemory>
        ensures firsts { OnOk result ((name : List ℕ) → told self.new.firsts name ≡ option_or (told self.old.firsts name) (spec.use_for (told_by tables.now) name mention.now)) }
        ensures busy { OnOk result ((name : List ℕ) → is_busy_in self.new name ≡ is_busy_in self.old name) }
    {
        match use_of(tables, mention) {
            None => Ok(()),
            Some(used) => {
                let _again = self.firsts.note(mention.name.copy(), used)?;
                Ok(())
            }
        }
    }

    /// Notes that a name is there by more than SAVE and type statements, if it is.
    fn note_busy(&mut self, mention: &Mention) -> Result<(), NoMemory>
        ensures firsts { OnOk result ((name : List ℕ) → told self.new.firsts name ≡ told self.old.firsts name) }
        ensures busy { OnOk result ((name : List ℕ) → is_busy_in self.new name ≡ (is_busy_in self.old name || spec.is_busy_with name mention.now)) }
    {
        if is_busy(mention.role) {
            let _again = self.busy.note(mention.name.copy(), ())?;
        }
        Ok(())
    }

    /// Notes what is in a text.
    fn note(&mut self, tables: &Tables, leaf: &Leaf) -> Result<(), NoMemory>
        ensures firsts { OnOk result ((name : List ℕ) → told self.new.firsts name ≡ option_or (told self.old.firsts name) (spec.use_in (told_by tables.now) name leaf.now)) }
        ensures busy { OnOk result ((name : List ℕ) → is_busy_in self.new name ≡ (is_busy_in self.old name || spec.on_name (spec.is_busy_with name) leaf.now)) }
    {
        match leaf {
            Leaf::Literal => Ok(()),
            Leaf::Text(_) => Ok(()),
            Leaf::Named(mention) => {
                self.note_use(tables, mention)?;
                self.note_busy(mention)?;
                Ok(())
            }
        }
    }

    /// Notes what is in a statement.
    pub fn note_all(&mut self, tables: &Tables, leaves: &[Leaf]) -> Result<(), NoMemory>
        ensures firsts { OnOk result ((name : List ℕ) → told self.new.firsts name ≡ option_or (told self.old.firsts name) (spec.first_use (told_by tables.now) leaves.now name)) }
        ensures busy { OnOk result ((name : List ℕ) → is_busy_in self.new name ≡ (is_busy_in self.old name || list_any (spec.on_name (spec.is_busy_with name)) leaves.now)) }
    {
        for leaf in leaves {
            self.note(tables, leaf)?;
        }
        Ok(())
    }
}
