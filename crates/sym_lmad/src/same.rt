//! Which symbols are equal.
ghost use Rattle.std.specs.Prelude.{◌≡◌, ◌↔◌, IsTrue};
ghost use Rattle.sym_lmad.specs.Same.{same_of};

use crate::sym::Sym;

/// Whether two symbols are equal: of the same shape, with the same numbers at the same places.
#[cycle(same)]
pub fn same(a: &Sym, b: &Sym) -> bool
    ensures value { result ≡ same_of a.now b.now }
    ensures same { IsTrue result ↔ (a.now ≡ b.now) }
{
    match (a, b) {
        (Sym::Lit(x), Sym::Lit(y)) => *x == *y,
        (Sym::Addr(x), Sym::Addr(y)) => *x == *y,
        (Sym::Cell(x), Sym::Cell(y)) => *x == *y,
        (Sym::Elem(x, s), Sym::Elem(y, t)) => *x == *y && same(s.get(), t.get()),
        (Sym::Index(x), Sym::Index(y)) => *x == *y,
        (Sym::Add(s, t), Sym::Add(u, v)) => same(s.get(), u.get()) && same(t.get(), v.get()),
        (Sym::Mul(x, s), Sym::Mul(y, t)) => *x == *y && same(s.get(), t.get()),
        _ => false,
    }
}
