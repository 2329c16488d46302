//! Laws of the definition of the limit: functions with nothing to do.
ghost use Rattle.f77_operands.specs.Laws.{AcceptedWithinTheLimit, NeedsAreLeaves, RefusedWhereTheLimitIsPassed};

/// A law: the need of a statement is the number of its literals and names.
pub fn law_of_needs()
    ensures { NeedsAreLeaves }
{}

/// A law: a file is accepted exactly where the greatest needs of its units add up to no more than there may be.
pub fn law_of_accepted_files()
    ensures { AcceptedWithinTheLimit }
{}

/// A law: a file is refused at a statement with which the greatest needs of the units add up to more than there may be, and
/// without which they don't.
pub fn law_of_refused_files()
    ensures { RefusedWhereTheLimitIsPassed }
{}
