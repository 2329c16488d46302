//! Laws of names and entities: functions with nothing to do.
ghost use Rattle.f77_names.specs.Laws.{EntitiesAreDistinct, EntitiesAreFound, RefusedFilesAreBroken, ResolvedFilesKeepAll, UsesHaveEntities};

/// A law: a refused file breaks the rule that refuses it, and of all else that is broken nothing is on an earlier line, or on
/// that line with a lesser code.
pub fn law_of_refused_names()
    ensures { RefusedFilesAreBroken }
{}

/// A law: in a file that isn't refused nothing is broken.
pub fn law_of_resolved_names()
    ensures { ResolvedFilesKeepAll }
{}

/// A law: by a unit and a name, the entity of that name is found where the unit has one, and nothing else.
pub fn law_of_found_entities()
    ensures { EntitiesAreFound }
{}

/// A law: no two entities of a file have one unit and name.
pub fn law_of_distinct_entities()
    ensures { EntitiesAreDistinct }
{}

/// A law: in a file that isn't refused, each name that a statement uses as a variable or constant is that of an entity of its
/// unit.
pub fn law_of_used_entities()
    ensures { UsesHaveEntities }
{}
