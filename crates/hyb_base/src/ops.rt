//! The operators of accumulations and of relations.

/// The operator of an accumulation: an assignment to `v` whose right side is `v op e`, `e op v`, a chain that begins
/// with `v`, or MAX or MIN with `v` as first or last argument.
///
/// The identity of an operator is the value that a partial result starts with.
/// A logical value is a number: 0 is false, any other is true, and an operator on truth gives 0 or 1.
#[derive(Clone, Copy, Debug, PartialEq, Eq)]
pub enum RedOp {
    /// `+`, wrapping at 64 bits; its identity is 0.
    Add,
    /// `*`, wrapping at 64 bits; its identity is 1.
    Mul,
    /// `MAX`, the greater; its identity is the least number, -2^63.
    Max,
    /// `MIN`, the lesser; its identity is the greatest number, 2^63 - 1.
    Min,
    /// `.AND.`, on truth; its identity is 1.
    And,
    /// `.OR.`, on truth; its identity is 0.
    Or,
    /// `.EQV.`, on truth; its identity is 1.
    Eqv,
    /// `.NEQV.`, on truth; its identity is 0.
    Neqv,
}

/// The operator of a relation (ANSI X3.9-1978, section 6.3.1).
#[derive(Clone, Copy, Debug, PartialEq, Eq)]
pub enum Rel {
    /// `.EQ.`, equal.
    Eq,
    /// `.NE.`, not equal.
    Ne,
    /// `.LT.`, less.
    Lt,
    /// `.LE.`, less or equal.
    Le,
    /// `.GT.`, greater.
    Gt,
    /// `.GE.`, greater or equal.
    Ge,
}
