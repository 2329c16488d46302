//! Whether what is read stays as it is while other entities are written.
ghost use Rattle.std.specs.Prelude.{◌≡◌, ◌^◌, ◌<◌, IfSome};
ghost use Rattle.std.specs.List.{list_any};
ghost use Rattle.pdag_nodes.specs.Regions as spec;
ghost use Rattle.pdag_nodes.specs.Regions.{are_one, region_by_number};

use hyb_base::env::Env;
use hyb_base::nums::Nums;

/// The region of an entity by its number.
fn region(env: &Env, entity: i64) -> Option<u64>
    ensures { result ≡ region_by_number env.now entity }
{
    if entity < 0 {
        return None;
    }
    let number = env.regions.get(entity as usize)?;
    if number < 0 {
        None
    } else {
        Some(number as u64)
    }
}

/// Whether two regions are one.
fn one(a: Option<u64>, b: Option<u64>) -> bool
    ensures { result ≡ are_one a b }
{
    match (a, b) {
        (Some(a), Some(b)) => a == b,
        _ => false,
    }
}

/// Whether an entity shares its region with one of some entities.
fn shares_one(env: &Env, entity: i64, entities: &[i64]) -> bool
    ensures { result ≡ spec.shares_one env.now entity entities.now }
{
    let mine = region(env, entity);
    entities.iter().any(|other| one(mine, region(env, *other)))
}

/// Whether one of some entities shares its region with one of others.
fn share_one(env: &Env, entities: &[i64], others: &[i64]) -> bool
    ensures { result ≡ list_any (λ entity. spec.shares_one env.now entity others.now) entities.now }
{
    entities
        .iter()
        .any(|entity| shares_one(env, *entity, others))
}

/// Whether no region of a read entity is the region of a written one. An entity without a region is in nobody's way.
pub(crate) fn is_stable(env: &Env, reads: &Nums, writes: &Nums) -> bool
    ensures { result ≡ spec.is_stable env.now reads.now writes.now }
{
    !share_one(env, reads.as_slice(), writes.as_slice())
}
