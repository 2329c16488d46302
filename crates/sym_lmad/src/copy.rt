//! Copies of symbols.
ghost use Rattle.std.specs.Prelude.{◌≡◌, IfOk};

use crate::sym::Sym;
use hyb_base::no_memory::NoMemory;
use sqlite_items::Boxed;
use std::alloc::Global;

/// A symbol of its own, equal to another.
#[cycle(copy)]
pub fn copy(alloc: Global, sym: &Sym) -> Result<Sym, NoMemory>
    ensures { IfOk result (λ s. s ≡ sym.now) }
{
    match sym {
        Sym::Lit(v) => Ok(Sym::Lit(*v)),
        Sym::Addr(entity) => Ok(Sym::Addr(*entity)),
        Sym::Cell(entity) => Ok(Sym::Cell(*entity)),
        Sym::Elem(entity, place) => {
            let place = copy(alloc, place.get())?;
            Ok(Sym::Elem(*entity, Boxed::new(alloc, place)?))
        }
        Sym::Index(index) => Ok(Sym::Index(*index)),
        Sym::Add(left, right) => {
            let left = copy(alloc, left.get())?;
            let right = copy(alloc, right.get())?;
            Ok(Sym::Add(Boxed::new(alloc, left)?, Boxed::new(alloc, right)?))
        }
        Sym::Mul(factor, inner) => {
            let inner = copy(alloc, inner.get())?;
            Ok(Sym::Mul(*factor, Boxed::new(alloc, inner)?))
        }
    }
}
