//! Laws of constants: functions with nothing to do.
ghost use Rattle.f77_constants.specs.Laws.{LengthsAreTheirOwn, ValuesAreLeast};

/// A law: the values of the constants of a unit are the least ones with which each constant has what its expression gives.
pub fn law_of_constants()
    ensures { ValuesAreLeast }
{}

/// A law: the lengths that texts are fitted to are those that their names have by the values themselves.
pub fn law_of_lengths()
    ensures { LengthsAreTheirOwn }
{}
