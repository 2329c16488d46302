//! Laws of what is built: functions with nothing to do.
ghost use Rattle.f77_built.specs.Laws.{BuiltFilesHaveLayouts, RefusedFilesAreUnbuilt, StatementsHaveMeaning};

/// A law: all statements of a file that isn't refused have a meaning in the layout of its entities.
pub fn law_of_meanings()
    ensures { StatementsHaveMeaning }
{}

/// A law: the entities of a file that isn't refused take no more storage units than there may be.
pub fn law_of_layouts()
    ensures { BuiltFilesHaveLayouts }
{}

/// A law: what is refused isn't built, and of what else isn't built nothing is earlier.
pub fn law_of_refusals()
    ensures { RefusedFilesAreUnbuilt }
{}
