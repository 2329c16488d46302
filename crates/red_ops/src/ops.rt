//! What the operators of accumulations give.
ghost use Rattle.std.specs.Prelude.{◌≡◌};
ghost use Rattle.hyb_base.specs.Reduction.{apply, identity, truth_of, number_of};

use hyb_base::ops::RedOp;
use hyb_base::wrap::{wrap_add, wrap_mul};

/// What a partial result of an operator starts with.
pub fn identity(op: RedOp) -> i64
    ensures { result ≡ identity op }
{
    match op {
        RedOp::Add => 0,
        RedOp::Mul => 1,
        RedOp::Max => i64::MIN,
        RedOp::Min => i64::MAX,
        RedOp::And => 1,
        RedOp::Or => 0,
        RedOp::Eqv => 1,
        RedOp::Neqv => 0,
    }
}

/// What an operator gives of two numbers: `+` and `*` wrap at 64 bits, MAX and MIN give the greater and the lesser, the
/// others look at truth and give 0 or 1.
pub fn apply(op: RedOp, a: i64, b: i64) -> i64
    ensures { result ≡ apply op a b }
{
    match op {
        RedOp::Add => wrap_add(a, b),
        RedOp::Mul => wrap_mul(a, b),
        RedOp::Max => a.max(b),
        RedOp::Min => a.min(b),
        RedOp::And => number_of(truth_of(a) && truth_of(b)),
        RedOp::Or => number_of(truth_of(a) || truth_of(b)),
        RedOp::Eqv => number_of(truth_of(a) == truth_of(b)),
        RedOp::Neqv => number_of(truth_of(a) != truth_of(b)),
    }
}

/// The truth that a number stands for: 0 is false, any other true.
fn truth_of(number: i64) -> bool
    ensures { result ≡ truth_of number }
{
    number != 0
}

/// The number that a truth is written as.
fn number_of(truth: bool) -> i64
    ensures { result ≡ number_of truth }
{
    if truth { 1 } else { 0 }
}
