//! Laws on accepted files: functions with nothing to do.
ghost use Rattle.f77_front.specs.Laws.{AcceptedEntitiesAreApart, AcceptedFilesAreSpelled};

/// A law: the files that are accepted, with their programs, are those whose texts spell them.
pub fn law_of_accepted_files()
    ensures { AcceptedFilesAreSpelled }
{}

/// A law: in every accepted program each variable and array in storage stands behind the end of those before it.
pub fn law_of_layouts()
    ensures { AcceptedEntitiesAreApart }
{}
