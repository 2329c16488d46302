//! The least and the greatest member of a descriptor.
ghost use Rattle.std.specs.Prelude.{◌≡◌, ◌+◌, ◌≤◌, ◌<ℤ◌, ◌≤ℤ◌, ℤ, pos, ◌+ℤ◌, ◌-ℤ◌, ◌*ℤ◌, IfNone, IfSome};
ghost use Rattle.sym_lmad.specs.Bindings.{IsReadable};
ghost use Rattle.sym_lmad.specs.Ends as spec;
ghost use Rattle.sym_lmad.specs.Ends.{widened, low_by, high_by, ends_by, pair_by, last_by};
ghost use Rattle.sym_lmad.specs.Members.{AreNearEnds, reads_of_dims, reads_of_lmad};
ghost use Rattle.sym_lmad.specs.Worth.{near_of, worth_of};

use crate::lmad::{Dim, Extent, Lmad};
use crate::value::value;
use hyb_base::cells::Cells;
use hyb_base::env::Env;
use hyb_base::near::near;

/// A product in 128 bits.
fn product(a: i64, b: i64) -> i128
    ensures { result ≡ a *ℤ b }
{
    a as i128 * b as i128
}

/// The sum, where it is near.
#[tactic(auto, using(crate::proofs::Near::far_is_none))]
fn near_sum(a: i64, b: i128) -> Option<i64>
    ensures { result ≡ near_of (a +ℤ b) }
{
    match (a as i128).checked_add(b) {
        Some(sum) => near(sum),
        None => None,
    }
}

/// The number `turns` strides from another one, where it is near.
pub(crate) fn near_moved(from: i64, stride: i64, turns: i64) -> Option<i64>
    ensures { result ≡ near_of (from +ℤ (stride *ℤ turns)) }
{
    let by = product(stride, turns);
    near_sum(from, by)
}

/// The least end moved by the last of a dimension's members.
fn lowered(low: i64, stride: i64, last: i64) -> Option<i64>
    ensures { result ≡ low_by low stride last }
{
    if stride < 0 {
        near_moved(low, stride, last)
    } else {
        Some(low)
    }
}

/// The greatest end moved by the last of a dimension's members.
fn raised(high: i64, stride: i64, last: i64) -> Option<i64>
    ensures { result ≡ high_by high stride last }
{
    if stride < 0 {
        Some(high)
    } else {
        near_moved(high, stride, last)
    }
}

/// The greatest number of a dimension: its count less 1.
#[tactic(auto, using(crate::proofs::EndLaws::last_is, crate::proofs::EndLaws::last_is_none))]
fn last_of(count: i64) -> Option<i64>
    ensures { result ≡ last_by count }
{
    if count <= 0 { None } else { Some(count - 1) }
}

/// Both numbers, where both are there.
fn both(low: Option<i64>, high: Option<i64>) -> Option<(i64, i64)>
    ensures { result ≡ pair_by low high }
{
    match (low, high) {
        (Some(low), Some(high)) => Some((low, high)),
        _ => None,
    }
}

/// Both ends with one more dimension: None where it has no member or an end isn't near.
fn widen(ends: (i64, i64), stride: i64, count: i64) -> Option<(i64, i64)>
    ensures { result ≡ widened ends stride count }
{
    let last = last_of(count)?;
    both(lowered(ends.0, stride, last), raised(ends.1, stride, last))
}

/// Both ends with some more dimensions, whose counts have values.
pub(crate) fn ends_of(ends: (i64, i64), extents: &[Extent]) -> Option<(i64, i64)>
    ensures { result ≡ ends_by extents.now ends }
{
    match extents.split_first() {
        None => Some(ends),
        Some((extent, rest)) => {
            let ends = widen(ends, extent.stride, extent.count)?;
            ends_of(ends, rest)
        }
    }
}

/// Both ends with some more dimensions: None where a count has no value besides.
fn ends_of_dims<C: Cells>(
    ends: (i64, i64),
    dims: &[Dim],
    env: &Env,
    cells: &mut C,
) -> Option<(i64, i64)>
    requires { IsReadable env.now (C.values cells.old) (C.may_get cells.old) }
    ensures value { result ≡ spec.ends_of_dims (worth_of env.now (C.values cells.old)) dims.now ends }
    ensures same_values { C.values cells.new ≡ C.values cells.old }
    ensures same_test { C.may_get cells.new ≡ C.may_get cells.old }
    ensures reads { C.reads cells.new ≤ C.reads cells.old + reads_of_dims dims.now }
{
    match dims.split_first() {
        None => Some(ends),
        Some((dim, rest)) => {
            let count = value(&dim.count, env, cells)?;
            let ends = widen(ends, dim.stride, count)?;
            ends_of_dims(ends, rest, env, cells)
        }
    }
}

/// The least and the greatest member of a descriptor. None exactly where its base or a count has no value, it has no
/// member, or one of the two isn't strictly between -2^62 and 2^62.
pub fn ends<C: Cells>(lmad: &Lmad, env: &Env, cells: &mut C) -> Option<(i64, i64)>
    requires { IsReadable env.now (C.values cells.old) (C.may_get cells.old) }
    ensures some { IfSome result
        (λ ends. AreNearEnds env.now (C.values cells.old) lmad.now ends.0 ends.1) }
    ensures none { IfNone result
        ((low high : ℤ) → AreNearEnds env.now (C.values cells.old) lmad.now low high → ⊥) }
    ensures same_values { C.values cells.new ≡ C.values cells.old }
    ensures same_test { C.may_get cells.new ≡ C.may_get cells.old }
    ensures reads { C.reads cells.new ≤ C.reads cells.old + reads_of_lmad lmad.now }
{
    let base = value(&lmad.base, env, cells)?;
    ends_of_dims((base, base), lmad.dims.as_slice(), env, cells)
}
