//! Which of two rules a part of a statement breaks.
ghost use Rattle.std.specs.Prelude.{◌≡◌, ◌||◌};
ghost use Rattle.f77_kinds.specs.Breaches as spec;

/// Which of two rules a part of a statement breaks.
#[derive(Clone, Copy, Debug, PartialEq, Eq)]
pub struct Breach {
    /// TypeClash: something is of a kind or form that its place doesn't take.
    pub clash: bool,
    /// ArgumentCount: a wrong number of subscripts, arguments or dimensions.
    pub miscount: bool,
}

/// It breaks neither.
pub fn no_breach() -> Breach
    ensures { result ≡ spec.no_breach }
{
    Breach {
        clash: false,
        miscount: false,
    }
}

/// It breaks the rule on kinds, where this holds.
pub fn clash_if(breaks: bool) -> Breach
    ensures { result ≡ spec.clash_if breaks }
{
    Breach {
        clash: breaks,
        miscount: false,
    }
}

/// It breaks the rule on numbers of subscripts and arguments, where this holds.
pub fn miscount_if(breaks: bool) -> Breach
    ensures { result ≡ spec.miscount_if breaks }
{
    Breach {
        clash: false,
        miscount: breaks,
    }
}

/// Whether one of two tests holds. A function of its own, since the join after `||` loses facts.
fn or(one: bool, other: bool) -> bool
    ensures { result ≡ (one || other) }
{
    one || other
}

/// What one of two parts breaks.
pub fn either(one: Breach, other: Breach) -> Breach
    ensures { result ≡ spec.either one other }
{
    Breach {
        clash: or(one.clash, other.clash),
        miscount: or(one.miscount, other.miscount),
    }
}
