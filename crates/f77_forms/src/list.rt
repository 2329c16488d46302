//! Lists of one kind of part, as they are read from a text.
ghost use Rattle.std.specs.Prelude.{◌≡◌, ◌≤◌, [], ◌∷◌, length, IfOk};
ghost use Rattle.f77_exprs.specs.Read.{Reads};
ghost use Rattle.f77_forms.specs.Form.{list_of, many_of};

use f77_exprs::reader::Reader;
use f77_exprs::unread::Unread;
use hyb_base::no_memory::NoMemory;
use sqlite_items::Items;
use std::alloc::Global;

/// A part of a statement of which lists are made: a production of the grammar.
pub trait Production {
    ghost use Rattle.std.specs.Prelude.{ℕ};
    ghost use Rattle.f77_exprs.specs.Reading.{Parser};

    /// Its tree.
    type Tree: Drop;

    ghost reading: { ℕ → Parser Self.Tree };

    /// Takes the part that comes next. `Unspelled` exactly where none does.
    fn read(alloc: Global, reader: &mut Reader<'_>, depth: usize) -> Result<Self::Tree, Unread>
        ensures value { Reads (reading depth reader.old) result reader.new }
        ensures within { length reader.new ≤ length reader.old };
}

/// list(part): one or more, with commas between
pub fn list<P: Production>(
    alloc: Global,
    reader: &mut Reader<'_>,
    depth: usize,
) -> Result<Items<P::Tree>, Unread>
    ensures value { Reads (list_of (P.reading depth) reader.old) result reader.new }
    ensures within { length reader.new ≤ length reader.old }
{
    let first = P::read(alloc, reader, depth)?;
    let mut found = Items::new(alloc);
    found.push(first)?;
    while reader.eat(b',') {
        let next = P::read(alloc, reader, depth)?;
        found.push(next)?;
    }
    Ok(found)
}

/// none or more parts, up to the end of the text
pub fn many<P: Production>(
    alloc: Global,
    reader: &mut Reader<'_>,
    depth: usize,
) -> Result<Items<P::Tree>, Unread>
    ensures value { Reads (many_of (P.reading depth) (length reader.old) [] reader.old) result reader.new }
    ensures within { length reader.new ≤ length reader.old }
{
    let turns = reader.rest().len();
    let mut found = Items::new(alloc);
    for _turn in 0..turns {
        if reader.is_empty() {
            return Ok(found);
        }
        let next = P::read(alloc, reader, depth)?;
        found.push(next)?;
    }
    Ok(found)
}

/// A first item, and the others after it.
pub fn with_first<T: Drop>(alloc: Global, first: T, others: Items<T>) -> Result<Items<T>, NoMemory>
    ensures { IfOk result (λ all. all ≡ first ∷ others) }
{
    let mut all = Items::new(alloc);
    all.push(first)?;
    all.append(others)?;
    Ok(all)
}
