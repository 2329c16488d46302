//! The kinds that operators take and give (ANSI X3.9-1978, sections 6.1.1, 6.2.1, 6.3.1 and 6.4.1).
ghost use Rattle.std.specs.Prelude.{◌≡◌};
ghost use Rattle.f77_kinds.specs.Kinds as spec;
ghost use Rattle.f77_leaves.specs.Meant.{same_kind};

use f77_ast::expr::{Kind, Op};

/// Whether two kinds are one.
fn same_kind(one: Kind, other: Kind) -> bool
    ensures { result ≡ same_kind one other }
{
    match (one, other) {
        (Kind::Integer, Kind::Integer) => true,
        (Kind::Integer, Kind::Logical) => false,
        (Kind::Integer, Kind::Character) => false,
        (Kind::Logical, Kind::Integer) => false,
        (Kind::Logical, Kind::Logical) => true,
        (Kind::Logical, Kind::Character) => false,
        (Kind::Character, Kind::Integer) => false,
        (Kind::Character, Kind::Logical) => false,
        (Kind::Character, Kind::Character) => true,
    }
}

/// Whether an operator takes operands of a kind: a relation compares numbers or characters, and no logical values.
fn takes_kind(operator: Op, given: Kind) -> bool
    ensures { result ≡ spec.takes_kind operator given }
{
    match operator {
        Op::Plus => same_kind(Kind::Integer, given),
        Op::Neg => same_kind(Kind::Integer, given),
        Op::Not => same_kind(Kind::Logical, given),
        Op::Add => same_kind(Kind::Integer, given),
        Op::Sub => same_kind(Kind::Integer, given),
        Op::Mul => same_kind(Kind::Integer, given),
        Op::Div => same_kind(Kind::Integer, given),
        Op::Pow => same_kind(Kind::Integer, given),
        Op::Cat => same_kind(Kind::Character, given),
        Op::Rel(_) => !same_kind(Kind::Logical, given),
        Op::And => same_kind(Kind::Logical, given),
        Op::Or => same_kind(Kind::Logical, given),
        Op::Eqv => same_kind(Kind::Logical, given),
        Op::Neqv => same_kind(Kind::Logical, given),
    }
}

/// The kind of what an operator gives, whatever its operands are.
pub fn result_kind(operator: Op) -> Kind
    ensures { result ≡ spec.result_kind operator }
{
    match operator {
        Op::Plus => Kind::Integer,
        Op::Neg => Kind::Integer,
        Op::Not => Kind::Logical,
        Op::Add => Kind::Integer,
        Op::Sub => Kind::Integer,
        Op::Mul => Kind::Integer,
        Op::Div => Kind::Integer,
        Op::Pow => Kind::Integer,
        Op::Cat => Kind::Character,
        Op::Rel(_) => Kind::Logical,
        Op::And => Kind::Logical,
        Op::Or => Kind::Logical,
        Op::Eqv => Kind::Logical,
        Op::Neqv => Kind::Logical,
    }
}

/// Whether something may be an operand of an operator: what has no kind, a name of type REAL or something called, isn't looked
/// at.
pub fn is_taken(operator: Op, given: Option<Kind>) -> bool
    ensures { result ≡ spec.is_taken operator given }
{
    match given {
        None => true,
        Some(given) => takes_kind(operator, given),
    }
}

/// Whether something is of the kind that is wanted, or has none.
pub fn fits(wanted: Kind, given: Option<Kind>) -> bool
    ensures { result ≡ spec.fits wanted given }
{
    match given {
        None => true,
        Some(given) => same_kind(wanted, given),
    }
}

/// Whether two kinds are there, and aren't one.
pub fn kinds_differ(one: Option<Kind>, other: Option<Kind>) -> bool
    ensures { result ≡ spec.kinds_differ one other }
{
    match (one, other) {
        (None, _) => false,
        (Some(_), None) => false,
        (Some(one), Some(other)) => !same_kind(one, other),
    }
}
