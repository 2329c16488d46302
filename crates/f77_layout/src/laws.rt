//! Laws of layouts: functions with nothing to do.
ghost use Rattle.f77_layout.specs.Laws.{EntitiesAreApart, LayoutsAreStorage};

/// A law: each layout is storage.
pub fn law_of_storage()
    ensures { LayoutsAreStorage }
{}

/// A law: of two stored entities the second stands behind the end of the first.
pub fn law_of_apart()
    ensures { EntitiesAreApart }
{}
