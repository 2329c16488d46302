//! Where entities and their elements are in storage (ANSI X3.9-1978, sections 2.13, 5.1.1, 5.2.5 and 5.4).
ghost use Rattle.std.specs.Prelude.{◌≡◌, ◌+◌, ◌<◌, ◌≤◌, ◌^◌, IfSome};
ghost use Rattle.std.specs.Int.{int_gap};
ghost use Rattle.f77_structure.specs.Literals.{constant_number};
ghost use Rattle.f77_structure.specs.Storage.{literal_number, bound_number, span_of, extent_of, vector_span, is_within, offset_of, offset_by, stored_at, start_by, start_of, storage_units_of, address_of_variable, address_of_element};

use f77_ast::expr::Expr;
use f77_ast::program::{Entity, Place};
use f77_ast::specification::Bound;

/// The lower and the upper bound of a dimension, as numbers (section 5.1.1.1).
#[derive(Clone, Copy, Debug, PartialEq, Eq)]
pub struct Span {
    /// The lower bound.
    pub low: i64,
    /// The upper bound.
    pub high: i64,
}

/// How far a number is above another; 0 where it isn't.
fn gap(low: i64, high: i64) -> u64
    ensures { result ≡ int_gap low high }
{
    if high < low { 0 } else { high.abs_diff(low) }
}

impl Span {
    /// Whether a subscript is within the bounds.
    pub fn contains(self, subscript: i64) -> bool
        ensures { result ≡ is_within self subscript }
    {
        self.low <= subscript && subscript <= self.high
    }

    /// How many elements come before the one of a subscript; 0 for one below the lower bound.
    pub fn offset(self, subscript: i64) -> u64
        ensures { result ≡ offset_of self subscript }
    {
        gap(self.low, subscript)
    }

    /// The number of elements: none where the upper bound is less than the lower one.
    pub fn extent(self) -> u128
        ensures { result ≡ extent_of self }
    {
        if self.high < self.low {
            0
        } else {
            u128::from(gap(self.low, self.high)) + 1
        }
    }
}

/// The number that an expression is; none where it is no number.
fn literal_number(expr: &Expr) -> Option<i64>
    ensures { result ≡ bound_number (Some expr.now) }
{
    match expr {
        Expr::Int(number) => Some(*number),
        Expr::Truth(_) => None,
        Expr::Chars(_) => None,
        Expr::Ref(_) => None,
        Expr::Unary(_, _) => None,
        Expr::Binary(_, _, _) => None,
        Expr::Paren(_) => None,
    }
}

/// The number that a bound is; none where it is left out, `*`, or no number.
fn bound_number(bound: &Option<Expr>) -> Option<i64>
    ensures { result ≡ bound_number bound.now }
{
    match bound {
        None => None,
        Some(expr) => literal_number(expr),
    }
}

/// The bounds of a dimension, where both are numbers: those of each entity that is no dummy are.
pub fn span_of(bound: &Bound) -> Option<Span>
    ensures { result ≡ span_of bound.now }
{
    match (bound_number(&bound.low), bound_number(&bound.high)) {
        (Some(low), Some(high)) => Some(Span { low, high }),
        (Some(_), None) => None,
        (None, _) => None,
    }
}

/// The bounds of an array of one dimension; none of what is no such array.
pub fn vector_span(bounds: &[Bound]) -> Option<Span>
    ensures { result ≡ vector_span bounds.now }
{
    match bounds {
        [] => None,
        [bound] => span_of(bound),
        [_, _, ..] => None,
    }
}

/// The first address of what is stored; none of a dummy or a constant.
pub fn stored_at(place: &Place) -> Option<u32>
    ensures value { result ≡ stored_at place.now }
    ensures start { IfSome result (λ address. address ≡ start_by place.now) }
{
    match place {
        Place::Stored(address) => Some(*address),
        Place::Dummy(_) => None,
        Place::Constant(_) => None,
    }
}

/// The number that a constant is; none of what is stored, of a dummy, and of a constant of another type (section 8.6).
pub fn constant_number(place: &Place) -> Option<i64>
    ensures { result ≡ constant_number place.now }
{
    match place {
        Place::Stored(_) => None,
        Place::Dummy(_) => None,
        Place::Constant(value) => literal_number(value),
    }
}

/// The address of a variable; none of what is no variable, or isn't stored.
pub fn address_of_variable(entity: &Entity) -> Option<u32>
    ensures value { result ≡ address_of_variable entity.now }
    ensures within { IfSome result (λ address. address < start_of entity.now + storage_units_of entity.now) }
{
    if entity.bounds.is_empty() {
        stored_at(&entity.place)
    } else {
        None
    }
}

/// How many elements come before the one of a subscript; none where that is outside the bounds.
fn offset_by(span: Option<Span>, subscript: i64) -> Option<u64>
    ensures { result ≡ offset_by span subscript }
{
    match span {
        Some(span) if span.contains(subscript) => Some(span.offset(subscript)),
        _ => None,
    }
}

/// The address of an element, by its subscript; none where that is outside the bounds, and of what is no array of one
/// dimension, or isn't stored.
pub fn address_of_element(entity: &Entity, subscript: i64) -> Option<u32>
    requires within { start_of entity.now + storage_units_of entity.now ≤ 2 ^ 32 }
    ensures value { result ≡ address_of_element entity.now subscript }
    ensures within { IfSome result (λ address. address < start_of entity.now + storage_units_of entity.now) }
{
    let first = stored_at(&entity.place)?;
    let offset = offset_by(vector_span(entity.bounds.as_slice()), subscript)?;
    Some(first + offset as u32)
}
