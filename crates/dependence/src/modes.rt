//! What is said of the regions of a loop's execution: modes, pairs of iterations, verdicts.

use hyb_base::list::List;
use hyb_base::ops::RedOp;

/// Two iterations and an address that both of them use. Iterations are counted from 1.
#[derive(Clone, Copy, Debug, PartialEq, Eq)]
pub struct Pair {
    /// The address.
    pub address: u32,
    /// The earlier iteration.
    pub earlier: u64,
    /// The later iteration.
    pub later: u64,
}

/// How the iterations of an execution use a region: the first of these that applies. Where none does, the region can't
/// be reduced.
#[derive(Clone, Copy, Debug, PartialEq, Eq)]
pub enum Mode {
    /// No iteration uses it.
    Untouched,
    /// No iteration writes it.
    ReadOnly,
    /// No two iterations conflict at it.
    Shared,
    /// No iteration reads what an earlier one wrote: each may have a copy of its own.
    Private,
    /// Each access to it is an accumulation by the one operator: each iteration may have a partial of its own.
    Reduce(RedOp),
}

/// The mode of a region. A private one comes with a conflict at an address of the region, a reduced one with a flow
/// pair at one.
#[derive(Clone, Copy, Debug, PartialEq, Eq)]
pub struct Judged {
    /// The mode.
    pub mode: Mode,
    /// The pair that rules out the modes before it.
    pub pair: Option<Pair>,
}

/// One judged mode a region, in the order of the regions.
pub type Modes = List<Judged>;

/// Whether the iterations of an execution are independent.
#[derive(Drop)]
pub enum Verdict {
    /// Each region has a mode.
    Independent(Modes),
    /// A flow pair at an address of a region that has no mode.
    Flow(Pair),
}
