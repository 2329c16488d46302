//! Laws of references: functions with nothing to do.
ghost use Rattle.f77_counted.specs.Laws.{ElementsHaveSubscripts};

/// A law: in a file whose names aren't refused, a reference with a list whose name is that of an array of its unit has as many
/// subscripts as the array has dimensions.
pub fn law_of_subscripts()
    ensures { ElementsHaveSubscripts }
{}
