//! Laws of the definitions of the shape of a file: functions with nothing to do.
ghost use Rattle.f77_shape.specs.Laws.{AcceptedRangesNest, AcceptedFilesAreSmall, AcceptedUnitsEnd, AcceptedFilesHaveOneMain};

/// A law: each DO statement of an accepted file has its range, and the ranges of a unit nest.
pub fn law_of_nested_ranges()
    ensures { AcceptedRangesNest }
{}

/// A law: an accepted file has no more statements and units than it may have, and its units hold its statements.
pub fn law_of_small_files()
    ensures { AcceptedFilesAreSmall }
{}

/// A law: each unit of an accepted file ends with END, and has no other.
pub fn law_of_units_that_end()
    ensures { AcceptedUnitsEnd }
{}

/// A law: an accepted file has exactly one main unit.
pub fn law_of_one_main_unit()
    ensures { AcceptedFilesHaveOneMain }
{}
