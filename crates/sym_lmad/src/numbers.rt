//! The numbers that a symbol always has: what a run computes of it, and the same without bound.
ghost use Rattle.sym_lmad.specs.Numbers.{RunIsWholeWrapped, WorthIsBoth};

/// The number that a run computes of a symbol is its number without bound, wrapped once; where the symbol has a worth,
/// both are that worth.
pub fn law_of_numbers()
    ensures wrapped { RunIsWholeWrapped }
    ensures worth { WorthIsBoth }
{}
