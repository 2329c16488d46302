//! The names of a unit (ANSI X3.9-1978, section 2.2).
ghost use Rattle.std.specs.Prelude.{◌≡◌, ◌∷◌, [], List, ℕ, OnOk};
ghost use Rattle.std.specs.List.{flat_map};
ghost use Rattle.f77_shape.specs.Limits.{name_count};
ghost use Rattle.f77_shape.specs.Names.{names_at, names_in};
ghost use Rattle.f77_shape.specs.NameSets.{Adds, Holds};

use f77_ast::name::Name;
use f77_ast::stmt::Stmt;
use f77_leaves::leaves::{Leaf, leaves_of};
use hyb_base::no_memory::NoMemory;
use std::alloc::Global;
use std::collections::HashSet;

/// The names of a unit by now, each once.
#[derive(Drop)]
pub struct Names {
    names: HashSet<Name>,
}

impl Names {
    /// No name. It takes no memory.
    pub fn new(alloc: Global) -> Names
        ensures { Holds [] result }
    {
        Names {
            names: HashSet::new(alloc),
        }
    }

    /// How many there are.
    pub fn len(&self) -> usize
        ensures { (names : List (List ℕ)) → Holds names self.now → result ≡ name_count names }
    {
        self.names.len()
    }

    /// Adds a name.
    fn add(&mut self, name: &Name) -> Result<(), NoMemory>
        ensures { OnOk result (Adds (name.now ∷ []) self.old self.new) }
    {
        self.names.insert(name.copy())?;
        Ok(())
    }

    /// Adds one of the literals and names of a statement where it is a name.
    fn add_leaf(&mut self, leaf: &Leaf) -> Result<(), NoMemory>
        ensures { OnOk result (Adds (names_at leaf.now) self.old self.new) }
    {
        match leaf {
            Leaf::Literal => Ok(()),
            Leaf::Text(_) => Ok(()),
            Leaf::Named(mention) => self.add(&mention.name),
        }
    }

    /// Adds the names among the literals and names of a statement.
    fn add_leaves(&mut self, leaves: &[Leaf]) -> Result<(), NoMemory>
        ensures { OnOk result (Adds (flat_map names_at leaves.now) self.old self.new) }
    {
        for leaf in leaves {
            self.add_leaf(leaf)?;
        }
        Ok(())
    }

    /// Adds the names in a statement.
    pub fn add_statement(&mut self, alloc: Global, stmt: &Stmt) -> Result<(), NoMemory>
        ensures { OnOk result (Adds (names_in stmt.now) self.old self.new) }
    {
        let leaves = leaves_of(alloc, stmt)?;
        self.add_leaves(leaves.as_slice())
    }
}
