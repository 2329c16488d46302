//! Laws on conflicts, modes and verdicts. Each function here does nothing: its contract is the law.

ghost use Rattle.dependence.specs.Laws.{CellsFit, ConflictsAre, FlowsAre, JudgedFit, LastCountsNot, ModesRest, MovesCountNot, PairsRuleOut, VerdictsAre};

/// An address has no conflict exactly where no iteration writes it or one alone accesses it.
pub fn law_of_conflicts()
    ensures { ConflictsAre }
{}

/// An address has a flow pair exactly where the first iteration that writes it comes before the last one with an exposed
/// read of it.
pub fn law_of_flows()
    ensures { FlowsAre }
{}

/// A region without a mode has a flow pair. So exactly one of the two kinds of right verdict exists; and no region has
/// two modes.
pub fn law_of_verdicts()
    ensures { VerdictsAre }
{}

/// The pair that comes with a mode rules out each mode before it.
pub fn law_of_pairs()
    ensures { PairsRuleOut }
{}

/// The modes of a right verdict fit.
pub fn law_of_judged_modes()
    ensures { JudgedFit }
{}

/// Modes of regions fit exactly where the modes of their cells fit as the laws on interleaving have it.
pub fn law_of_cells()
    ensures { CellsFit }
{}

/// The mode of a region rests on the accesses to it alone.
pub fn law_of_regions()
    ensures { ModesRest }
{}

/// A last trace without accesses changes neither a mode nor a right verdict.
pub fn law_of_last_traces()
    ensures { LastCountsNot }
{}

/// Moves in a trace change nothing that is said of it.
pub fn law_of_moves()
    ensures { MovesCountNot }
{}
