//! Scripts: the operations of a loop's iterations.

use hyb_base::ops::RedOp;

/// One operation on cells, which are named by their addresses.
#[derive(Clone, Copy)]
pub enum Op {
    /// Writes a value to a cell: one step.
    Set {
        /// The cell.
        to: u8,
        /// The value.
        value: i64,
    },
    /// Reads a cell, and then writes what it read to another: two steps.
    Copy {
        /// The cell that is read.
        from: u8,
        /// The cell that is written.
        to: u8,
    },
    /// An accumulation: reads a cell, and then writes what the operator gives of the answer and a value. Two steps.
    Accumulate {
        /// The operator.
        by: RedOp,
        /// The cell.
        to: u8,
        /// The value.
        value: i64,
    },
    /// Moves: one step.
    Move,
    /// Meets a fault.
    Fault,
    /// Ends the iteration: one step.
    End,
}

/// The operations of the iterations of a loop, one iteration after another, each with its `End`.
#[derive(Drop)]
pub struct Script {
    /// The operations.
    pub ops: Vec<Op>,
    /// The index of the first operation of each iteration.
    pub starts: Vec<usize>,
}
