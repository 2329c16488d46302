//! What the bounds of dummy arguments are made of (ANSI X3.9-1978, section 5.1.1.1).
ghost use Rattle.std.specs.Prelude.{◌≡◌};
ghost use Rattle.f77_constants.specs.Constants.{is_kind};
ghost use Rattle.f77_due.specs.Due as spec;
ghost use Rattle.f77_due.specs.Starts.{facts_in};

use crate::unit_facts::UnitTables;
use f77_ast::expr::{Expr, Kind, Ref};
use f77_ast::name::Name;
use f77_leaves::declarations::Known;

/// What an expression is made of.
#[derive(Clone, Copy, Debug, PartialEq, Eq)]
pub enum Makeup {
    /// Literals and constants that have values.
    Constant,
    /// These, and INTEGER variables that are dummy arguments or in COMMON.
    Adjustable,
    /// Something else too.
    Neither,
}

/// What a whole of two parts is made of.
fn both(one: Makeup, other: Makeup) -> Makeup
    ensures { result ≡ spec.both one other }
{
    match (one, other) {
        (Makeup::Constant, _) => other,
        (Makeup::Adjustable, Makeup::Constant) => Makeup::Adjustable,
        (Makeup::Adjustable, Makeup::Adjustable) => Makeup::Adjustable,
        (Makeup::Adjustable, Makeup::Neither) => Makeup::Neither,
        (Makeup::Neither, _) => Makeup::Neither,
    }
}

/// Whether a kind that may be there is INTEGER.
fn is_integer(kind: Option<Kind>) -> bool
    ensures { result ≡ is_kind kind Kind.Integer }
{
    match kind {
        None => false,
        Some(Kind::Integer) => true,
        Some(Kind::Logical) => false,
        Some(Kind::Character) => false,
    }
}

/// Whether a name, of which this is known, is an INTEGER variable that is a dummy argument or has a place in COMMON.
fn is_adjuster(unit: &UnitTables, name: &Name, known: &Known) -> bool
    ensures { result ≡ spec.is_adjuster (facts_in unit.now) name.now known.now }
{
    is_integer(unit.tables.kind_of(name))
        && known.bounds.is_none()
        && (known.dummy.is_some() || known.common)
}

/// What a constant's name is made of: none that has no value is a constant.
fn constant_makeup(unit: &UnitTables, name: &Name) -> Makeup
    ensures { result ≡ spec.constant_makeup ((facts_in unit.now).values name.now) }
{
    match unit.values.find(name) {
        None => Makeup::Neither,
        Some(_) => Makeup::Constant,
    }
}

/// What a name, of which this is known, is made of.
fn known_makeup(unit: &UnitTables, name: &Name, known: &Known) -> Makeup
    ensures { result ≡ spec.name_makeup (facts_in unit.now) name.now known.now }
{
    if known.value.is_some() {
        return constant_makeup(unit, name);
    }
    if is_adjuster(unit, name, known) {
        Makeup::Adjustable
    } else {
        Makeup::Neither
    }
}

/// What a name is made of.
fn name_makeup(unit: &UnitTables, name: &Name) -> Makeup
    ensures { result ≡ spec.name_makeup (facts_in unit.now) name.now ((facts_in unit.now).declarations.known name.now) }
{
    match unit.tables.names.find(name) {
        None => Makeup::Neither,
        Some(known) => known_makeup(unit, name, known),
    }
}

/// What a reference is made of: one with a list or a substring of something else.
fn ref_makeup(unit: &UnitTables, reference: &Ref) -> Makeup
    ensures { result ≡ spec.ref_makeup (facts_in unit.now) reference.now }
{
    if reference.args.is_some() || reference.part.is_some() {
        return Makeup::Neither;
    }
    name_makeup(unit, &reference.name)
}

/// What an expression is made of.
pub fn makeup_of(unit: &UnitTables, expr: &Expr) -> Makeup
    ensures { result ≡ spec.makeup_of (facts_in unit.now) expr.now }
{
    match expr {
        Expr::Int(_) => Makeup::Constant,
        Expr::Truth(_) => Makeup::Constant,
        Expr::Chars(_) => Makeup::Constant,
        Expr::Ref(reference) => ref_makeup(unit, reference),
        Expr::Unary(_, operand) => makeup_of(unit, operand.get()),
        Expr::Binary(_, left, right) => {
            both(makeup_of(unit, left.get()), makeup_of(unit, right.get()))
        }
        Expr::Paren(inner) => makeup_of(unit, inner.get()),
    }
}
