//! Symbols: sums and literal multiples of literals, addresses, cells, elements and indices.

use sqlite_items::Boxed;

/// A term over the bindings and the storage at the entry of a loop. Entities and indices are named by their numbers.
#[cycle(sym)]
#[derive(Drop)]
pub enum Sym {
    /// A number.
    Lit(i64),
    /// The first address at which an entity is bound. It reads no cell.
    Addr(u32),
    /// The value of an entity's first cell, or the value that the entity is bound to.
    Cell(u32),
    /// The value of the cell at an entity's first address plus a place, which is 0 at the first.
    Elem(u32, Boxed<Sym>),
    /// The value of an index.
    Index(u32),
    /// A sum.
    Add(Boxed<Sym>, Boxed<Sym>),
    /// A multiple by a literal of any size.
    Mul(i64, Boxed<Sym>),
}
