//! Sizes of entities, and offsets of elements.
ghost use Rattle.std.specs.Prelude.{◌≡◌};
ghost use Rattle.std.specs.Option.{option_map};
ghost use Rattle.f77_structure.specs.Storage.{extent_by, span_of, offset_by};
ghost use Rattle.f77_sizes.specs.Sizes as spec;

use crate::capped::{capped_product, capped_sum};
use f77_ast::program::Entity;
use f77_ast::specification::Bound;
use f77_structure::storage::span_of;

/// The number of elements of a dimension: none where its bounds aren't both numbers.
fn extent(bound: &Bound) -> u128
    ensures { result ≡ extent_by (span_of bound.now) }
{
    match span_of(bound) {
        None => 0,
        Some(span) => span.extent(),
    }
}

/// How many elements of a dimension come before the one of a subscript: none where that is outside the bounds, or they aren't
/// both numbers.
fn offset(bound: &Bound, subscript: i64) -> Option<u64>
    ensures { result ≡ offset_by (span_of bound.now) subscript }
{
    match span_of(bound) {
        None => None,
        Some(span) => {
            if span.contains(subscript) {
                Some(span.offset(subscript))
            } else {
                None
            }
        }
    }
}

/// How many elements an array of these dimensions has; 1 for a variable. From 2^64 on it is 2^64.
#[tactic(auto, using(crate::proofs::Capping::capped_right))]
pub fn elements(bounds: &[Bound]) -> u128
    ensures { result ≡ spec.capped (spec.elements_of bounds.now) }
{
    match bounds {
        [] => 1,
        [bound, rest @ ..] => capped_product(extent(bound), elements(rest)),
    }
}

/// How many cells an entity takes. From 2^64 on it is 2^64.
#[tactic(auto, using(crate::proofs::Capping::capped_left))]
pub fn cells(entity: &Entity) -> u128
    ensures { result ≡ spec.capped (spec.cells_of entity.now) }
{
    capped_product(elements(entity.bounds.as_slice()), u128::from(entity.len))
}

/// How many elements come before an element in all, by how many come before it in its first dimension, the extent of that, and how
/// many come before it in the others.
fn element_with(extent: u128, offset: Option<u64>, later: Option<u128>) -> Option<u128>
    ensures { result ≡ option_map spec.capped (spec.element_with extent offset later) }
{
    match (offset, later) {
        (Some(offset), Some(later)) => Some(capped_sum(
            u128::from(offset),
            capped_product(extent, later),
        )),
        (Some(_), None) => None,
        (None, _) => None,
    }
}

/// How many elements come before the one of some subscripts, of which the first varies fastest: none exactly where a subscript
/// is outside its bounds, or there are more or fewer subscripts than dimensions. From 2^64 on it is 2^64.
#[tactic(auto, using(crate::proofs::Capping::capped_element))]
pub fn element_at(bounds: &[Bound], subscripts: &[i64]) -> Option<u128>
    ensures { result ≡ option_map spec.capped (spec.element_at bounds.now subscripts.now) }
{
    match bounds {
        [] => { if subscripts.is_empty() { Some(0) } else { None } }
        [bound, bounds @ ..] => match subscripts {
            [] => None,
            [subscript, subscripts @ ..] => {
                let later = element_at(bounds, subscripts);
                element_with(extent(bound), offset(bound, *subscript), later)
            }
        },
    }
}
