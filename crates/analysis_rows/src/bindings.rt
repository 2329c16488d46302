//! Whether what a row says meets what evaluation asks for.
ghost use Rattle.std.specs.Prelude.{◌≡◌, ℕ, ℤ, pos, ◌+ℤ◌, ◌<◌, ◌^◌, IsTrue, length, slice_get, Some, IfSome};
ghost use Rattle.sym_lmad.specs.Bindings.{FitsCells, IsAddressOf, IsOfNamed, IsOfRegion, region_of, start_of, length_of, is_within, region_by};
ghost use Rattle.pdag_nodes.specs.Nodes.{HaveIndices, IndexBelow};

use hyb_base::env::{Base, Env};
use pdag_nodes::pred::Pred;
use pdag_nodes::preds::Preds;

/// Whether the `len` numbers from `start` on are addresses of cells.
fn are_addresses(start: i64, len: i64, cells: usize) -> bool
    ensures { IsTrue result → (z : ℤ) → IsTrue (is_within start len z) → IsAddressOf cells z }
{
    if len <= 0 {
        return true;
    }
    if start < 0 || start > 4294967296 || len > 4294967296 - start {
        return false;
    }
    (start + len) as u64 <= cells as u64
}

/// Whether a number is one of the `len` numbers from `start` on.
fn within(start: i64, len: i64, number: i64) -> bool
    ensures { IsTrue result → IsTrue (is_within start len number) }
{
    start <= number && number as i128 - (start as i128) < len as i128
}

/// Whether each address of a region is that of a cell.
fn region_fits(env: &Env, region: usize, cells: usize) -> bool
    requires { region < 2 ^ 63 }
    ensures { IsTrue result → (z : ℤ) → IsOfRegion env.now region z → IsAddressOf cells z }
{
    let start = env.spans.get(region * 2).unwrap_or(0);
    let len = env.spans.get(region * 2 + 1).unwrap_or(0);
    are_addresses(start, len, cells)
}

/// The region that the bindings name for an entity.
fn region(env: &Env, entity: usize) -> Option<usize>
    ensures value { result ≡ region_of env.now entity }
    ensures small { IfSome result (λ r. r < 2 ^ 63) }
{
    let number = env.regions.get(entity)?;
    if number < 0 {
        None
    } else {
        Some(number as usize)
    }
}

/// Whether an address is one of the region that the bindings name for an entity.
fn is_named(env: &Env, entity: usize, address: u32) -> bool
    ensures { IsTrue result → IsOfNamed env.now (region_of env.now entity) (pos address) }
{
    match region(env, entity) {
        Some(region) => {
            let start = env.spans.get(region * 2).unwrap_or(0);
            let len = env.spans.get(region * 2 + 1).unwrap_or(0);
            within(start, len, address as i64)
        }
        None => false,
    }
}

/// Whether an entity that is bound to an address is bound to one of its region.
fn base_fits(env: &Env, entity: usize) -> bool
    ensures { IsTrue result → (a : ℕ) → slice_get env.now.bases entity ≡ Some (Base.At a)
        → IsOfNamed env.now (region_of env.now entity) (pos a) }
{
    match env.bases.get(entity).copied() {
        Some(Base::At(address)) => is_named(env, entity, address),
        Some(Base::Value(_)) => true,
        None => true,
    }
}

/// Whether the addresses of all regions are those of cells.
fn regions_fit(env: &Env, cells: usize) -> bool
    ensures { IsTrue result → (r : ℕ) (z : ℤ) → IsOfRegion env.now r z → IsAddressOf cells z }
{
    for region in 0..env.spans.len() {
        if region >= 1 << 62 || !region_fits(env, region, cells) {
            return false;
        }
    }
    true
}

/// Whether all entities that are bound to addresses are bound to those of their regions.
fn bases_fit(env: &Env) -> bool
    ensures { IsTrue result → (entity a : ℕ) → slice_get env.now.bases entity ≡ Some (Base.At a)
        → IsOfNamed env.now (region_of env.now entity) (pos a) }
{
    for entity in 0..env.bases.len() {
        if !base_fits(env, entity) {
            return false;
        }
    }
    true
}

/// Whether bindings fit some cells.
pub fn fit(env: &Env, cells: usize) -> bool
    ensures { IsTrue result → FitsCells env.now cells }
{
    if !regions_fit(env, cells) {
        return false;
    }
    bases_fit(env)
}

/// Whether the index that a predicate binds is among the first ones.
fn index_fits(places: usize, pred: &Pred) -> bool
    ensures { IsTrue result → IndexBelow places pred.now }
{
    match pred {
        Pred::True => true,
        Pred::False => true,
        Pred::Le(_, _) => true,
        Pred::Ne(_, _) => true,
        Pred::And(_, _) => true,
        Pred::Or(_, _) => true,
        Pred::Every { index, .. } => (*index as usize) < places,
        Pred::Ascending { index, .. } => (*index as usize) < places,
        Pred::Stable { .. } => true,
    }
}

/// Whether each index that a predicate of a list binds has a place.
pub fn have_indices(preds: &Preds, places: usize) -> bool
    ensures { IsTrue result → HaveIndices preds.now places }
{
    for id in 0..preds.len() {
        if !index_fits(places, preds.node(id)) {
            return false;
        }
    }
    true
}
