//! Laws of the operators of accumulations: functions with nothing to do.
ghost use Rattle.hyb_base.specs.Reduction.{OperatorsReduce};
ghost use Rattle.red_ops.specs.Laws.{IdentitiesStay, TruthDecides, OrderIsFree};

/// A law: what an operator gives of two numbers may be grouped either way and taken in either order, and a partial result may
/// start with the identity.
pub fn law_of_operators()
    ensures { OperatorsReduce }
{}

/// A law: with the identity, from either side, an operator on INTEGER gives the other number, and one on LOGICAL 1 or 0, by the
/// truth of the other.
pub fn law_of_identities()
    ensures { IdentitiesStay }
{}

/// A law: what an operator on LOGICAL gives depends on the truth of its operands alone.
pub fn law_of_truth()
    ensures { TruthDecides }
{}

/// A law: partial results that are committed to one number in any order give the same.
pub fn law_of_orders()
    ensures { OrderIsFree }
{}
