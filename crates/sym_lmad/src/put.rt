//! A symbol in the place of an index.
ghost use Rattle.std.specs.Prelude.{◌≡◌, IfOk};
ghost use Rattle.sym_lmad.specs.Put.{put_of, PutKeepsNumbers, PutKeepsWorth, PutReadsEnds};

use crate::copy::copy;
use crate::sym::Sym;
use hyb_base::no_memory::NoMemory;
use sqlite_items::Boxed;
use std::alloc::Global;

/// The symbol with `end` in the place of an index, each time that it is named.
#[cycle(put)]
pub fn put(alloc: Global, index: u32, end: &Sym, sym: &Sym) -> Result<Sym, NoMemory>
    ensures { IfOk result (λ s. s ≡ put_of index end.now sym.now) }
{
    match sym {
        Sym::Lit(v) => Ok(Sym::Lit(*v)),
        Sym::Addr(entity) => Ok(Sym::Addr(*entity)),
        Sym::Cell(entity) => Ok(Sym::Cell(*entity)),
        Sym::Elem(entity, place) => {
            let place = put(alloc, index, end, place.get())?;
            Ok(Sym::Elem(*entity, Boxed::new(alloc, place)?))
        }
        Sym::Index(named) => {
            if *named == index {
                copy(alloc, end)
            } else {
                Ok(Sym::Index(*named))
            }
        }
        Sym::Add(left, right) => {
            let left = put(alloc, index, end, left.get())?;
            let right = put(alloc, index, end, right.get())?;
            Ok(Sym::Add(Boxed::new(alloc, left)?, Boxed::new(alloc, right)?))
        }
        Sym::Mul(factor, inner) => {
            let inner = put(alloc, index, end, inner.get())?;
            Ok(Sym::Mul(*factor, Boxed::new(alloc, inner)?))
        }
    }
}

/// Both numbers of a symbol with an end in the place of an index are the symbol's own where that index has the end's
/// number; so is its worth where the end has one; and it names its own cells, and the end's once for each naming.
pub fn law_of_put()
    ensures numbers { PutKeepsNumbers }
    ensures worth { PutKeepsWorth }
    ensures reads { PutReadsEnds }
{}
