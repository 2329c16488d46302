//! What a symbol gains from each value of an index to the next.
ghost use Rattle.std.specs.Prelude.{◌≡◌, ◌⊎◌, ℤ, ◌+ℤ◌, ◌*ℤ◌, None, Some, IfSome, IfNone, SomeIff, FitsSigned};
ghost use Rattle.std.specs.Int.{w128};
ghost use Rattle.sym_lmad.specs.Gain.{gain_of, gain_of_index, still, HasWidePart, GainMakesLine};

use crate::sym::Sym;

/// The sum, where it fits.
fn sum(a: i128, b: i128) -> Option<i128>
    ensures { SomeIff result (FitsSigned w128 (a +ℤ b)) (a +ℤ b) }
{
    a.checked_add(b)
}

/// The product, where it fits.
fn multiple(a: i64, b: i128) -> Option<i128>
    ensures { SomeIff result (FitsSigned w128 (a *ℤ b)) (a *ℤ b) }
{
    (a as i128).checked_mul(b)
}

/// No gain, where there is none.
fn no_gain(gain: i128) -> Option<i128>
    ensures { result ≡ still (Some gain) }
{
    if gain == 0 { Some(0) } else { None }
}

/// The gain of an index.
fn of_index(index: u32, named: u32) -> i128
    ensures { result ≡ gain_of_index index named }
{
    if named == index { 1 } else { 0 }
}

/// What a symbol gains from each value of an index to the next, in 128 bits. None where the place of an element has a
/// gain other than 0, or the gain of a part doesn't fit.
#[cycle(gain)]
pub fn gain(sym: &Sym, index: u32) -> Option<i128>
    ensures some { IfSome result (λ g. gain_of index sym.now ≡ Some g) }
    ensures none { IfNone result ((gain_of index sym.now ≡ None) ⊎ HasWidePart index sym.now) }
{
    match sym {
        Sym::Lit(_) => Some(0),
        Sym::Addr(_) => Some(0),
        Sym::Cell(_) => Some(0),
        Sym::Elem(_, place) => {
            let moved = gain(place.get(), index)?;
            no_gain(moved)
        }
        Sym::Index(named) => Some(of_index(index, *named)),
        Sym::Add(left, right) => {
            let left = gain(left.get(), index)?;
            let right = gain(right.get(), index)?;
            sum(left, right)
        }
        Sym::Mul(factor, inner) => {
            let inner = gain(inner.get(), index)?;
            multiple(*factor, inner)
        }
    }
}

/// With a gain, a symbol's number without bound is a line in the index.
pub fn law_of_gains()
    ensures { GainMakesLine }
{}
