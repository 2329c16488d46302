//! What one step of a process did.

use crate::fault::Fault;
use hyb_base::ops::RedOp;

/// What a step answers.
#[derive(Clone, Copy, Debug, PartialEq, Eq)]
pub enum Stepped {
    /// One storage unit was read.
    Read {
        /// The address of the storage unit.
        address: u32,
        /// The operator, where the read belongs to an accumulation.
        by: Option<RedOp>,
    },
    /// One storage unit was written.
    Wrote {
        /// The address of the storage unit.
        address: u32,
        /// The operator, where the write belongs to an accumulation.
        by: Option<RedOp>,
        /// What the write means to a DO, where it is of a DO-variable by the DO's own control. An implied DO has
        /// none.
        control: Option<Control>,
    },
    /// Control moved.
    Inner,
    /// A line was printed.
    Printed,
    /// The run has ended.
    Ended,
    /// A fault came in place of the step.
    Faulted(Fault),
}

/// What a write of a DO-variable means to its DO, named by its ordinal: DO statements of the file are counted
/// from 1.
#[derive(Clone, Copy, Debug, PartialEq, Eq)]
pub enum Control {
    /// The write with which the DO begins.
    Began(u32),
    /// The write that ends an iteration of the DO.
    Turned(u32),
}
