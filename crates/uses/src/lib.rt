//! How an iteration uses one address, and what the rules on sets of addresses say of it.
//!
//! The definitions are in `specs/`. The functions here do nothing: the contract of each is a law. The laws that range over any sets are
//! lemmas in `proofs/`, stated in `specs/Laws.antt`, since a contract can't range over sets.
#![tactic(auto)]

ghost use Rattle.uses.specs.Use.{ProductIsAssociative, UntouchedIsNeutral, TestsOfProducts};

/// Uses by one part after another: the product is associative, and `untouched` is neutral on both sides. An address that is used by two
/// parts is read before any write exactly where the first part reads it so, or leaves it untouched and the second reads it so; it is
/// written exactly where one of both writes it.
pub fn law_of_products()
    ensures associative { ProductIsAssociative }
    ensures neutral { UntouchedIsNeutral }
    ensures tests { TestsOfProducts }
{}
