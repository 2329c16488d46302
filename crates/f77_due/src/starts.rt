//! The letters that names begin with whose types are given by IMPLICIT (ANSI X3.9-1978, section 8.5).
ghost use Rattle.std.specs.Prelude.{◌≡◌, ◌&&◌, ◌||◌, ℕ, false, OnOk, IfOk};
ghost use Rattle.std.specs.Option.{is_none};
ghost use Rattle.f77_uses.specs.Tables.{told_by};
ghost use Rattle.f77_uses.specs.UseTables.{uses_in};
ghost use Rattle.f77_uses.specs.Uses.{leaves_in, on_name};
ghost use Rattle.f77_due.specs.Starts.{starts_in};
ghost use Rattle.f77_due.specs.Unit as spec;

use f77_ast::program::Listed;
use f77_leaves::leaves::{Leaf, Mention, leaves_of};
use f77_uses::reals::is_name;
use f77_uses::tables::Tables;
use f77_uses::use_table::UseTable;
use hyb_base::no_memory::NoMemory;
use indexmap::IndexMap;
use std::alloc::Global;

/// Letters.
#[derive(Drop)]
pub struct Starts {
    letters: IndexMap<u8, ()>,
}

/// Whether a mention is of a variable, array, dummy argument, result or constant.
pub fn names_entity(uses: &UseTable, mention: &Mention) -> bool
    ensures { result ≡ spec.names_entity (uses_in uses.now) mention.now }
{
    is_name(mention.role) && uses.is_entity(&mention.name)
}

/// Whether nothing but IMPLICIT gives a name its type, and it is no dummy argument.
fn is_untyped(tables: &Tables, mention: &Mention) -> bool
    ensures { result ≡ (is_none ((told_by tables.now).known mention.now.name).typing && is_none ((told_by tables.now).known mention.now.name).dummy) }
{
    match tables.names.find(&mention.name) {
        None => true,
        Some(known) => known.typing.is_none() && known.dummy.is_none(),
    }
}

/// Whether a mention is of an entity that IMPLICIT may give a type, and that is no dummy argument.
fn is_implied(tables: &Tables, uses: &UseTable, mention: &Mention) -> bool
    ensures { result ≡ spec.is_implied (told_by tables.now) (uses_in uses.now) mention.now }
{
    names_entity(uses, mention) && is_untyped(tables, mention)
}

impl Starts {
    /// No letter. It takes no memory.
    fn new(alloc: Global) -> Starts
        ensures { (letter : ℕ) → starts_in result letter ≡ false }
    {
        Starts {
            letters: IndexMap::new(alloc),
        }
    }

    /// Whether a letter is one of these.
    pub fn has(&self, letter: u8) -> bool
        ensures { result ≡ starts_in self.now letter }
    {
        self.letters.get(&letter).is_some()
    }

    /// Adds the first letter of a name.
    fn add(&mut self, name: &[u8]) -> Result<(), NoMemory>
        ensures { OnOk result ((letter : ℕ) → starts_in self.new letter ≡ (starts_in self.old letter || spec.begins letter name.now)) }
    {
        match name {
            [] => Ok(()),
            [first, ..] => {
                self.letters.insert(*first, ())?;
                Ok(())
            }
        }
    }

    /// Adds the first letter of a name, if nothing but IMPLICIT gives it its type.
    fn note(&mut self, tables: &Tables, uses: &UseTable, mention: &Mention) -> Result<(), NoMemory>
        ensures { OnOk result ((letter : ℕ) → starts_in self.new letter ≡ (starts_in self.old letter || spec.is_implied_with (told_by tables.now) (uses_in uses.now) letter mention.now)) }
    {
        if is_implied(tables, uses, mention) {
            self.add(mention.name.as_slice())
        } else {
            Ok(())
        }
    }

    /// Looks at one of the literals and names of a statement.
    fn note_leaf(&mut self, tables: &Tables, uses: &UseTable, leaf: &Leaf) -> Result<(), NoMemory>
        ensures { OnOk result ((letter : ℕ) → starts_in self.new letter ≡ (starts_in self.old letter || on_name (spec.is_implied_with (told_by tables.now) (uses_in uses.now) letter) leaf.now)) }
    {
        match leaf {
            Leaf::Literal => Ok(()),
            Leaf::Text(_) => Ok(()),
            Leaf::Named(mention) => self.note(tables, uses, mention),
        }
    }

    /// Looks at what is in a statement.
    fn note_all(
        &mut self,
        tables: &Tables,
        uses: &UseTable,
        leaves: &[Leaf],
    ) -> Result<(), NoMemory>
        ensures { OnOk result ((letter : ℕ) → starts_in self.new letter ≡ (starts_in self.old letter || spec.starts_among (told_by tables.now) (uses_in uses.now) leaves.now letter)) }
    {
        for leaf in leaves {
            self.note_leaf(tables, uses, leaf)?;
        }
        Ok(())
    }
}

/// The letters with which an entity of a unit begins that is no dummy argument, and has its type by its first letter.
pub fn starts_of(
    alloc: Global,
    unit: &[Listed],
    tables: &Tables,
    uses: &UseTable,
) -> Result<Starts, NoMemory>
    ensures { IfOk result (λ starts. (letter : ℕ) → starts_in starts letter ≡ spec.starts_among (told_by tables.now) (uses_in uses.now) (leaves_in unit.now) letter) }
{
    let mut starts = Starts::new(alloc);
    for listed in unit {
        let leaves = leaves_of(alloc, &listed.stmt)?;
        starts.note_all(tables, uses, leaves.as_slice())?;
    }
    Ok(starts)
}
