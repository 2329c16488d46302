//! What a symbol is worth over bindings and storage.
ghost use Rattle.std.specs.Prelude.{◌≡◌, ℕ, ◌+◌, ◌*◌, ◌^◌, ◌<◌, ◌≤◌, ℤ, pos, ◌+ℤ◌, ◌*ℤ◌, length, IsTrue, IfSome, unwrap_or, slice_get, if◌then◌else◌, Some, None};
ghost use Rattle.sym_lmad.specs.Bindings.{IsReadable, address_by, address_in, is_within, region_of};
ghost use Rattle.sym_lmad.specs.Naming.{reads_of};
ghost use Rattle.sym_lmad.specs.Worth.{worth_of, near_of, near_by, sum_by, cell_by, first_by, number_by, element_by};

use crate::sym::Sym;
use hyb_base::cells::Cells;
use hyb_base::env::{Base, Env};
use hyb_base::near::near;

/// The number itself, where it is near.
fn near_value(v: i64) -> Option<i64>
    ensures { result ≡ near_of v }
{
    near(v as i128)
}

/// The sum of two worths, where it is near.
fn sum(left: Option<i64>, right: Option<i64>) -> Option<i64>
    ensures { result ≡ sum_by left right }
{
    match (left, right) {
        (Some(left), Some(right)) => near_sum(left, right),
        _ => None,
    }
}

/// The sum, where it is near.
fn near_sum(a: i64, b: i64) -> Option<i64>
    ensures { result ≡ near_of (a +ℤ b) }
{
    near(a as i128 + b as i128)
}

/// The product, where it is near.
fn near_product(a: i64, b: i64) -> Option<i64>
    ensures { result ≡ near_of (a *ℤ b) }
{
    near(a as i128 * b as i128)
}

/// The value of an entity's first cell, or the value that the entity is bound to.
#[tactic(auto, using(crate::proofs::Bindings::bound_below))]
fn cell<C: Cells>(env: &Env, entity: u32, cells: &mut C) -> Option<i64>
    requires { IsReadable env.now (C.values cells.old) (C.may_get cells.old) }
    ensures value { result ≡ cell_by (C.values cells.old) (slice_get env.now.bases entity) }
    ensures same_values { C.values cells.new ≡ C.values cells.old }
    ensures same_test { C.may_get cells.new ≡ C.may_get cells.old }
    ensures reads { C.reads cells.new ≤ C.reads cells.old + 1 }
{
    match env.bases.get(entity as usize).copied() {
        Some(Base::At(address)) => near_value(cells.get(address)),
        Some(Base::Value(value)) => near_value(value),
        None => None,
    }
}

/// The first address at which an entity is bound.
fn first(base: Option<Base>) -> Option<u32>
    ensures { result ≡ first_by base }
{
    match base {
        Some(Base::At(address)) => Some(address),
        Some(Base::Value(_)) => None,
        None => None,
    }
}

/// An address as a number.
fn address(first: Option<u32>) -> Option<i64>
    ensures { result ≡ number_by first }
{
    match first {
        Some(address) => near_value(address as i64),
        None => None,
    }
}

/// The value of an index.
fn index(value: Option<i64>) -> Option<i64>
    ensures { result ≡ near_by value }
{
    match value {
        Some(value) => near_value(value),
        None => None,
    }
}

/// The region that the bindings name for an entity.
fn region(env: &Env, entity: u32) -> Option<usize>
    ensures value { result ≡ region_of env.now entity }
    ensures small { IfSome result (λ r. r < 2 ^ 63) }
{
    let number = env.regions.get(entity as usize)?;
    if number < 0 {
        None
    } else {
        Some(number as usize)
    }
}

/// An address moved by a number.
fn moved(address: u32, by: i64) -> i128
    ensures value { result ≡ pos address +ℤ by }
{
    address as i128 + by as i128
}

/// Whether a number is one of the `len` numbers from `start` on.
fn within(start: i64, len: i64, number: i128) -> bool
    ensures { result ≡ is_within start len number }
{
    let end = end_of(start, len);
    start as i128 <= number && number < end
}

/// The number after the last of the `len` numbers from `start` on.
fn end_of(start: i64, len: i64) -> i128
    ensures { result ≡ start +ℤ len }
{
    start as i128 + len as i128
}

/// The address that a number is.
fn to_address(number: i128) -> Option<u32>
    requires { IfSome (address_by number) (λ a. a < 2 ^ 32) }
    ensures { result ≡ address_by number }
{
    if number < 0 {
        None
    } else {
        Some(number as u32)
    }
}

/// The address at a distance from another one, where it is one of the `len` addresses from `start` on.
fn address_within(first: u32, place: i64, start: i64, len: i64) -> Option<u32>
    requires { IfSome (address_in start len (pos first +ℤ place)) (λ a. a < 2 ^ 32) }
    ensures { result ≡ address_in start len (pos first +ℤ place) }
{
    let number = moved(first, place);
    if within(start, len, number) {
        to_address(number)
    } else {
        None
    }
}

/// The value of the element at a place of an entity.
#[tactic(auto, using(crate::proofs::Bindings::address_below))]
fn element<C: Cells>(env: &Env, entity: u32, place: i64, cells: &mut C) -> Option<i64>
    requires { IsReadable env.now (C.values cells.old) (C.may_get cells.old) }
    ensures value { result
        ≡ element_by env.now (C.values cells.old) (first_by (slice_get env.now.bases entity)) (region_of env.now entity) (Some place) }
    ensures same_values { C.values cells.new ≡ C.values cells.old }
    ensures same_test { C.may_get cells.new ≡ C.may_get cells.old }
    ensures reads { C.reads cells.new ≤ C.reads cells.old + 1 }
{
    let first = first(env.bases.get(entity as usize).copied())?;
    let region = region(env, entity)?;
    let start = env.spans.get(region * 2).unwrap_or(0);
    let len = env.spans.get(region * 2 + 1).unwrap_or(0);
    let address = address_within(first, place, start, len)?;
    near_value(cells.get(address))
}

/// What a symbol is worth: None exactly where a part isn't strictly between -2^62 and 2^62, an element is outside its
/// region, `Addr` or `Elem` names an entity that is bound to a value, or an entity or an index has no place in the
/// bindings.
#[cycle(value)]
pub fn value<C: Cells>(sym: &Sym, env: &Env, cells: &mut C) -> Option<i64>
    requires { IsReadable env.now (C.values cells.old) (C.may_get cells.old) }
    ensures value { result ≡ worth_of env.now (C.values cells.old) sym.now }
    ensures same_values { C.values cells.new ≡ C.values cells.old }
    ensures same_test { C.may_get cells.new ≡ C.may_get cells.old }
    ensures reads { C.reads cells.new ≤ C.reads cells.old + reads_of sym.now }
{
    match sym {
        Sym::Lit(v) => near_value(*v),
        Sym::Addr(entity) => address(first(env.bases.get(*entity as usize).copied())),
        Sym::Cell(entity) => cell(env, *entity, cells),
        Sym::Elem(entity, place) => {
            let place = value(place.get(), env, cells)?;
            element(env, *entity, place, cells)
        }
        Sym::Index(place) => index(env.indices.get(*place as usize)),
        Sym::Add(left, right) => {
            let left = value(left.get(), env, cells);
            let right = value(right.get(), env, cells);
            sum(left, right)
        }
        Sym::Mul(factor, inner) => {
            let inner = value(inner.get(), env, cells)?;
            near_product(*factor, inner)
        }
    }
}
