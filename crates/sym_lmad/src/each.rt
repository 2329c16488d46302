//! All members of a descriptor, added to a list.
ghost use Rattle.std.specs.Prelude.{◌≡◌, ℕ, ◌+◌, ◌^◌, ◌<◌, ◌≤◌, ℤ, pos, ◌+ℤ◌, ◌*ℤ◌, ◌++◌, true, Some, None, IfOk, OnOk, OnErr, if◌then◌else◌};
ghost use Rattle.std.specs.Bool.{MatchBool};
ghost use Rattle.hyb_base.specs.Near.{IsNear};
ghost use Rattle.sym_lmad.specs.Bindings.{IsReadable};
ghost use Rattle.sym_lmad.specs.Members.{are_positive, count_of, turns_of, members_of, extents_by, extents_onto, reads_of_dims, reads_of_lmad, AreNear, IsReached, AddsFirst, AddsMembers, AddsSome, LacksMembers, MembersAreListed};
ghost use Rattle.sym_lmad.specs.Worth.{worth_of};

use crate::ends::{ends_of, near_moved};
use crate::lmad::{Dim, Extent, Lmad};
use crate::value::value;
use hyb_base::cells::Cells;
use hyb_base::env::Env;
use hyb_base::list::List;
use hyb_base::no_memory::NoMemory;
use hyb_base::nums::Nums;
use std::alloc::Global;

/// A count as a number of turns: 0 where it is negative.
fn number(count: i64) -> u64
    ensures value { result ≡ count_of count }
    ensures small { result < 2 ^ 63 }
{
    if count < 0 { 0 } else { count as u64 }
}

/// How many members a dimension gives from one number: one where its stride is 0, whatever its count.
fn turns(extent: Extent) -> u64
    ensures value { result ≡ turns_of extent }
    ensures small { result < 2 ^ 63 }
{
    let count = number(extent.count);
    if extent.stride == 0 {
        count.min(1)
    } else {
        count
    }
}

/// The number some strides from another one, which is near.
#[tactic(auto, using(crate::proofs::Near::near_some))]
fn moved(from: i64, stride: i64, turn: u64) -> i64
    requires small { turn < 2 ^ 63 }
    requires near { IsNear (from +ℤ (stride *ℤ pos turn)) }
    ensures { result ≡ from +ℤ (stride *ℤ pos turn) }
{
    match near_moved(from, stride, turn as i64) {
        Some(number) => number,
        None => unreachable!(),
    }
}

/// Whether each dimension has a number.
fn all_positive(extents: &[Extent]) -> bool
    ensures { result ≡ are_positive extents.now }
{
    extents.iter().all(|extent| 0 < extent.count)
}

/// Adds the members that are reached from a number, the first dimension's number rising last.
fn add_members(extents: &[Extent], from: i64, into: &mut Nums) -> Result<(), NoMemory>
    requires near { AreNear from extents.now }
    requires positive { are_positive extents.now ≡ true }
    ensures ok { OnOk result (into.new ≡ into.old ++ members_of extents.now from) }
    ensures err { OnErr result (AddsFirst (members_of extents.now from) into.old into.new) }
{
    let Some((extent, rest)) = extents.split_first() else {
        into.push(from)?;
        return Ok(());
    };
    for turn in 0..turns(*extent) {
        add_members(rest, moved(from, extent.stride, turn), into)?;
    }
    Ok(())
}

/// Adds all members that are reached from a near number, where all are near: the answer is whether they are.
fn add_near(base: i64, extents: &[Extent], into: &mut Nums) -> Result<bool, NoMemory>
    requires { IsNear base }
    ensures answer { IfOk result
        (λ near. MatchBool near
        (AreNear base extents.now × (into.new ≡ into.old ++ members_of extents.now base))
        ((into.new ≡ into.old) × ((a : ℤ) × (IsReached base extents.now a × (IsNear a → ⊥))))) }
    ensures err { OnErr result (AddsFirst (members_of extents.now base) into.old into.new) }
{
    if !all_positive(extents) {
        return Ok(true);
    }
    if ends_of((base, base), extents).is_none() {
        return Ok(false);
    }
    add_members(extents, base, into)?;
    Ok(true)
}

/// Adds some dimensions with the values of their counts: the answer is whether all have one.
fn add_extents<C: Cells>(
    dims: &[Dim],
    env: &Env,
    cells: &mut C,
    into: &mut List<Extent>,
) -> Result<bool, NoMemory>
    requires { IsReadable env.now (C.values cells.old) (C.may_get cells.old) }
    ensures answer { IfOk result
        (λ had. extents_onto into.old (extents_by (worth_of env.now (C.values cells.old)) dims.now)
        ≡ (if had then Some into.new else None)) }
    ensures same_values { C.values cells.new ≡ C.values cells.old }
    ensures same_test { C.may_get cells.new ≡ C.may_get cells.old }
    ensures reads { C.reads cells.new ≤ C.reads cells.old + reads_of_dims dims.now }
{
    match dims.split_first() {
        None => Ok(true),
        Some((dim, rest)) => {
            let Some(count) = value(&dim.count, env, cells) else {
                return Ok(false);
            };
            into.push(Extent {
                stride: dim.stride,
                count,
            })?;
            add_extents(rest, env, cells, into)
        }
    }
}

/// Adds the members of a descriptor, of a dimension with stride 0 each once, one that two dimensions reach maybe more
/// than once. The answer is false exactly where the base or a count has no value or a member isn't strictly between
/// -2^62 and 2^62; then nothing is added. A descriptor with a count that is at most 0 has no member.
pub fn each<C: Cells>(
    alloc: Global,
    lmad: &Lmad,
    env: &Env,
    cells: &mut C,
    into: &mut Nums,
) -> Result<bool, NoMemory>
    requires { IsReadable env.now (C.values cells.old) (C.may_get cells.old) }
    ensures answer { IfOk result
        (λ all. MatchBool all
        (AddsMembers env.now (C.values cells.old) lmad.now into.old into.new)
        ((into.new ≡ into.old) × LacksMembers env.now (C.values cells.old) lmad.now)) }
    ensures err { OnErr result
        (AddsSome env.now (C.values cells.old) lmad.now into.old into.new) }
    ensures same_values { C.values cells.new ≡ C.values cells.old }
    ensures same_test { C.may_get cells.new ≡ C.may_get cells.old }
    ensures reads { C.reads cells.new ≤ C.reads cells.old + reads_of_lmad lmad.now }
{
    let Some(base) = value(&lmad.base, env, cells) else {
        return Ok(false);
    };
    let mut extents = List::new(alloc);
    if !add_extents(lmad.dims.as_slice(), env, cells, &mut extents)? {
        return Ok(false);
    }
    add_near(base, extents.as_slice(), into)
}

/// What `each` adds are the members, each once or more.
pub fn law_of_members()
    ensures { MembersAreListed }
{}
