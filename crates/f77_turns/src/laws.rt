//! Laws on steps: each a function with an empty body, whose contract is the law.
ghost use Rattle.f77_turns.specs.Composed.{RunsCompose};
ghost use Rattle.f77_turns.specs.Ends.{RunsEndAtEnd};
ghost use Rattle.f77_turns.specs.Frames.{StepsKeepFrames};
ghost use Rattle.f77_turns.specs.Kept.{OnlyPrintsChangeLines, StepsKeepSettings};
ghost use Rattle.f77_turns.specs.Ordinals.{DoStatementsHaveLoops, ActiveLoopsAreOfProgram, ActiveLoopsDiffer};
ghost use Rattle.f77_turns.specs.Steps.{LinesAndNumbersAreOfStatements, MarkedWritesFollowReads};
ghost use Rattle.f77_turns.specs.Turns.{TurnsAreMarked, BeginningsAreMarked, TurnsClear, IterationsBeginAlike};
ghost use Rattle.f77_turns.specs.Addresses.{EventsLieInStorage};

/// A law: a run of k steps has come to its end, so that every longer run is the same; or every longer run is what the k steps show,
/// and then the run from the process, the storage and the input that they lead to.
pub fn law_of_composed_runs()
    ensures { RunsCompose }
{}

/// A law: a step changes the line so far only where the last frame is at a PRINT, or at one that a logical IF holds.
pub fn law_of_lines()
    ensures { OnlyPrintsChangeLines }
{}

/// A law: a step changes unit, bindings and bounds of no frame.
pub fn law_of_settings()
    ensures { StepsKeepSettings }
{}

/// A law: a step leaves the frames below the last one, and of the last one the unit. Its active loops change only where a loop begins
/// or turns (ANSI X3.9-1978, sections 11.10.3 and 11.10.7): the loop that begins is the innermost one, or isn't active where it has no
/// iteration; the loop that turns has one iteration more ended, or isn't active after its last one, and no loop around it turns in that step.
pub fn law_of_frames()
    ensures { StepsKeepFrames }
{}

/// A law: a process prints a line only where its last frame is at a PRINT, and takes a number of the input only where it is at a READ, or at
/// one that a logical IF holds.
pub fn law_of_lines_and_numbers()
    ensures { LinesAndNumbersAreOfStatements }
{}

/// A law: the event after a write, a number taken, a move or a printed line is no write of an accumulation.
pub fn law_of_marked_writes()
    ensures { MarkedWritesFollowReads }
{}

/// A law: each DO statement of a program has its loop, which the program lists under its ordinal (ANSI X3.9-1978, section 11.10).
pub fn law_of_do_statements()
    ensures { DoStatementsHaveLoops }
{}

/// A law: an active loop has the ordinal and the range of the loop of its DO statement.
pub fn law_of_active_loops()
    ensures { ActiveLoopsAreOfProgram }
{}

/// A law: the active loops of all frames of a process have different ordinals.
pub fn law_of_ordinals()
    ensures { ActiveLoopsDiffer }
{}

/// A law: the event is a write marked with the turn of an ordinal exactly where the last frame does the incrementation processing
/// (ANSI X3.9-1978, section 11.10.7) of a loop with that ordinal. The loop's variable takes its next value.
pub fn law_of_turns()
    ensures { TurnsAreMarked }
{}

/// A law: the event is a write marked with the beginning of an ordinal exactly where the last frame is at the DO statement of the loop with
/// that ordinal, its values are known (ANSI X3.9-1978, section 11.10.3) and its variable is that of no active DO or implied DO.
/// The loop's variable takes its first value.
pub fn law_of_beginnings()
    ensures { BeginningsAreMarked }
{}

/// A law: a turn leaves of its frame nothing but unit, bindings, bounds and loops, the innermost one with one iteration more ended, or
/// without it after its last iteration; the frames below and the line stay.
pub fn law_of_frames_after_turns()
    ensures { TurnsClear }
{}

/// A law: the frames that begin the iterations of a loop, after its DO statement and after its turns, differ only in the
/// iterations done.
pub fn law_of_iterations()
    ensures { IterationsBeginAlike }
{}

/// A law: each address that an event reads, writes or takes a number for is one of storage.
pub fn law_of_addresses()
    ensures { EventsLieInStorage }
{}

/// A law: a process ends the run only where its last frame is at an END (ANSI X3.9-1978, section 11.14).
pub fn law_of_ends()
    ensures { RunsEndAtEnd }
{}
