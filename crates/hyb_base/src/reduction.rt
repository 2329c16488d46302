//! Laws on the operators of accumulations.
ghost use Rattle.hyb_base.specs.Reduction.{OperatorsReduce};

/// Operands of one operator may be grouped either way and taken in either order, and a partial result may start with the
/// operator's identity: a law, with nothing to do.
pub fn law_of_operators()
    ensures { OperatorsReduce }
{}
