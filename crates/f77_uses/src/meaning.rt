//! What a name with a list is, by what is known of it (ANSI X3.9-1978, sections 5.3, 15.2 and 15.10).
ghost use Rattle.std.specs.Prelude.{◌≡◌, Some};
ghost use Rattle.f77_leaves.specs.Declarations as spec;
ghost use Rattle.f77_leaves.specs.Meant as meant;
ghost use Rattle.f77_leaves.specs.Meant.{meant_by};
ghost use Rattle.f77_structure.specs.Storage.{bound_number};

use f77_ast::expr::{Expr, Kind};
use f77_ast::name::Name;
use f77_ast::specification::Length;
use f77_leaves::declarations::{Known, Typing};
use f77_leaves::intrinsics::{Intrinsic, intrinsic_named};
use f77_leaves::meant::Meant;

/// The kind of a type that may be there.
pub fn kind_in(typing: &Option<Typing>) -> Option<Kind>
    ensures { result ≡ spec.kind_in typing.now }
{
    match typing {
        None => None,
        Some(typing) => Some(typing.kind),
    }
}

/// Whether two kinds are one.
fn same_kind(one: Kind, other: Kind) -> bool
    ensures { result ≡ meant.same_kind one other }
{
    match (one, other) {
        (Kind::Integer, Kind::Integer) => true,
        (Kind::Integer, Kind::Logical) => false,
        (Kind::Integer, Kind::Character) => false,
        (Kind::Logical, Kind::Integer) => false,
        (Kind::Logical, Kind::Logical) => true,
        (Kind::Logical, Kind::Character) => false,
        (Kind::Character, Kind::Integer) => false,
        (Kind::Character, Kind::Logical) => false,
        (Kind::Character, Kind::Character) => true,
    }
}

/// Whether an expression is the number 1.
fn is_number_one(expr: &Expr) -> bool
    ensures { result ≡ meant.is_number_one (bound_number (Some expr.now)) }
{
    match expr {
        Expr::Int(number) => *number == 1,
        Expr::Truth(_) => false,
        Expr::Chars(_) => false,
        Expr::Ref(_) => false,
        Expr::Unary(_, _) => false,
        Expr::Binary(_, _, _) => false,
        Expr::Paren(_) => false,
    }
}

/// Whether a length is 1 as it is written: left out, or the number 1.
fn is_one(length: &Option<Length>) -> bool
    ensures { result ≡ meant.is_one length.now }
{
    match length {
        None => true,
        Some(Length::Digits(digits)) => *digits == 1,
        Some(Length::Paren(expr)) => is_number_one(expr),
        Some(Length::Asterisk) => false,
    }
}

/// Whether a type statement gives a name another type than that of what an intrinsic function gives.
fn retypes(intrinsic: Intrinsic, typing: &Option<Typing>) -> bool
    ensures { result ≡ meant.retypes intrinsic typing.now }
{
    match typing {
        None => false,
        Some(typing) => !(same_kind(typing.kind, intrinsic.gives()) && is_one(&typing.length)),
    }
}

/// Whether a name is declared as something else than an intrinsic function.
fn is_declared(known: &Known, intrinsic: Intrinsic) -> bool
    ensures { result ≡ meant.is_declared known.now intrinsic }
{
    known.common
        || known.dummy.is_some()
        || known.value.is_some()
        || known.heading
        || known.result
        || retypes(intrinsic, &known.typing)
}

/// What a name with a list is that isn't declared.
pub fn undeclared(intrinsic: Option<Intrinsic>) -> Meant
    ensures { result ≡ meant.unless_declared spec.unknown intrinsic }
{
    match intrinsic {
        None => Meant::Call,
        Some(intrinsic) => Meant::Function(intrinsic),
    }
}

/// What a name with a list is that has no bounds.
fn unless_declared(known: &Known, intrinsic: Option<Intrinsic>) -> Meant
    ensures { result ≡ meant.unless_declared known.now intrinsic }
{
    match intrinsic {
        None => Meant::Call,
        Some(intrinsic) => {
            if is_declared(known, intrinsic) {
                Meant::Call
            } else {
                Meant::Function(intrinsic)
            }
        }
    }
}

/// What a name with a list is, of which this is known.
pub fn meant_by(known: &Known, name: &Name) -> Meant
    ensures { result ≡ meant_by known.now name.now }
{
    if known.bounds.is_some() {
        Meant::Element
    } else {
        unless_declared(known, intrinsic_named(name.as_slice()))
    }
}
