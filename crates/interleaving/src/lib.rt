//! Laws on iterations that take their steps interleaved, over an abstract machine.
//!
//! The definitions are in `specs/`. Each function here does nothing: its contract is a law, proved for all types of processes `P`, of
//! operators `O` and of values `V`. Nothing is said of threads: a region takes one step a pick.
#![tactic(auto)]

ghost use Rattle.interleaving.specs.BlockLaws.{AreBlocks, Blocks, BlocksAreWhole, BlocksInterleave, LoopBlocksAreWhole, LoopBlocksInterleave};
ghost use Rattle.interleaving.specs.Interleaving.{Interleaves, IsWhole, RunsAlone};
ghost use Rattle.interleaving.specs.ListStores.{AreStores};
ghost use Rattle.interleaving.specs.Loops.{LoopInterleaves, LoopIsWhole, LoopRunsAlone, Owners};
ghost use Rattle.interleaving.specs.Passing.{Passes};
ghost use Rattle.interleaving.specs.Picks.{PicksName};
ghost use Rattle.interleaving.specs.Prefixes.{DoPrefixes, LoopDoPrefixes};
ghost use Rattle.interleaving.specs.Solo.{AreRuns};
ghost use Rattle.interleaving.specs.Turning.{HasOneRun, RunsTurn, TurnsCompose};

/// Interleaving: where modes fit the traces of iterations that run in turn, every list of picks leaves their region without a fault; it is
/// over after all their steps, with the store that they leave in turn.
pub fn law_of_interleaving<P, O, V>()
    ensures { Interleaves P O V }
{}

/// Alone: where modes fit iterations that run in turn, each of them runs alone from the entry with the same trace.
pub fn law_of_running_alone<P, O, V>()
    ensures { RunsAlone P O V }
{}

/// Whole: where modes fit iterations that run each alone, and picks bring their region to its end, they run in turn to its store.
pub fn law_of_whole_executions<P, O, V>()
    ensures { IsWhole P O V }
{}

/// Prefixes: what an iteration of a region did is the first part of its run alone, and all of it once it is finished.
pub fn law_of_prefixes<P, O, V>()
    ensures { DoPrefixes P O V }
{}

/// Own cells: processes that have values of their own of some cells are processes of a machine.
pub fn law_of_own_cells<P, O, V>()
    ensures { Owners P O V }
{}

/// Interleaving, of the iterations of a loop: each has its own value of the loop's variable.
pub fn law_of_interleaved_loops<P, O, V>()
    ensures { LoopInterleaves P O V }
{}

/// Alone, of the iterations of a loop.
pub fn law_of_loops_alone<P, O, V>()
    ensures { LoopRunsAlone P O V }
{}

/// Whole, of the iterations of a loop.
pub fn law_of_whole_loops<P, O, V>()
    ensures { LoopIsWhole P O V }
{}

/// Prefixes, of the iterations of a loop.
pub fn law_of_loop_prefixes<P, O, V>()
    ensures { LoopDoPrefixes P O V }
{}

/// Solo: the run of a process for a number of steps is a run, those of a loop's iterations are runs alone, and runs with one trace leave one store.
pub fn law_of_solo_runs<P, O, V>()
    ensures { AreRuns P O V }
{}

/// Turning: a run from the beginning of a loop takes its iterations in turn and goes on after them, or stops inside one.
pub fn law_of_turns<P, O, V>()
    ensures { RunsTurn P O V }
{}

/// Composing: iterations that run in turn, and a run after them, are a run from the beginning of their loop.
pub fn law_of_composed_turns<P, O, V>()
    ensures { TurnsCompose P O V }
{}

/// One run: a process over a store has one run to its end, iterations run in turn in one way, and a run that stops inside one is shorter.
pub fn law_of_one_run<P, O, V>()
    ensures { HasOneRun P O V }
{}

/// Passing: an invariant for code that steps a process and keeps its trace; whatever goes on from here goes on from the beginning.
pub fn law_of_passing<P, O, V>()
    ensures { Passes P O V }
{}

/// Picks: in any region that picks leave, a pick names a live unfinished iteration, and each of them is named by some pick.
pub fn law_of_picks<P, O, V>()
    ensures { PicksName P O V }
{}

/// List stores: what the store of a list of values is after a write to an address within the list, and after one to another.
pub fn law_of_list_stores<V>()
    ensures { AreStores V }
{}

/// Blocks: modes that fit the traces of iterations fit those of their blocks, whatever the size of these.
pub fn law_of_fitting_blocks<P, O>()
    ensures { AreBlocks P O }
{}

/// Blocks: an iteration and those after it in its block are a process of a machine.
pub fn law_of_blocks<P, O, V>()
    ensures { Blocks P O V }
{}

/// Interleaving, of blocks of iterations.
pub fn law_of_interleaved_blocks<P, O, V>()
    ensures { BlocksInterleave P O V }
{}

/// Whole, of blocks of iterations.
pub fn law_of_whole_blocks<P, O, V>()
    ensures { BlocksAreWhole P O V }
{}

/// Interleaving, of blocks of the iterations of a loop: each block has its own value of the loop's variable.
pub fn law_of_interleaved_loop_blocks<P, O, V>()
    ensures { LoopBlocksInterleave P O V }
{}

/// Whole, of blocks of the iterations of a loop.
pub fn law_of_whole_loop_blocks<P, O, V>()
    ensures { LoopBlocksAreWhole P O V }
{}
