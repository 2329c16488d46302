//! What an evaluation gives.

use f77_ast::fault::Fault;
use hyb_base::ops::RedOp;

/// What an evaluation gives on a list of answers, which are the values that an item or a statement has read by now, in
/// order.
#[derive(Clone, Copy, Debug)]
pub enum Evaluated<'a, T> {
    /// A value, and the answers that are left.
    Gives(T, &'a [i64]),
    /// The address that is read next, with the operator of an accumulation where it is the last read of one.
    Wants(u32, Option<RedOp>),
    /// A fault.
    Fails(Fault),
}
