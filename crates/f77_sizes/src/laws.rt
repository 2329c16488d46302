//! Laws of elements: functions with nothing to do.
ghost use Rattle.f77_sizes.specs.Laws.{ElementsAreWithin, ElementsDiffer, ElementsAreAll};

/// A law: subscripts within the bounds of an array are taken one to one onto the numbers from 0 to the number of its elements
/// less 1.
pub fn law_of_elements()
    ensures within { ElementsAreWithin }
    ensures differ { ElementsDiffer }
    ensures all { ElementsAreAll }
{}
