//! Laws of the definition of schedules: functions with nothing to do.
ghost use Rattle.sched_text.specs.Laws.{TextsAreDecided, SchedulesAreSound};

/// A law: a text spells exactly one schedule, or it has exactly one line at which it leaves the form, and not both.
pub fn law_of_texts()
    ensures { TextsAreDecided }
{}

/// A law: what a text spells has a window from 1 to 4,096, and a list of it has a pick.
pub fn law_of_schedules()
    ensures { SchedulesAreSound }
{}
