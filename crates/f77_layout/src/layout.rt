//! The layout of a file.
ghost use Rattle.std.specs.Prelude.{◌≡◌, IfOk, Some};
ghost use Rattle.f77_layout.specs.Layout as spec;

use crate::placing::{place_all, regions_of};
use crate::units::total_units;
use f77_ast::entities::Entities;
use f77_ast::program::Layout;
use hyb_base::no_memory::NoMemory;
use hyb_base::nums::Nums;
use std::alloc::Global;

/// The layout of entities within the limit on storage.
fn layout_within(alloc: Global, mut entities: Entities, total: u32) -> Result<Layout, NoMemory>
    requires { spec.limited (spec.total_units entities) ≡ Some total }
    ensures { IfOk result (λ layout. layout ≡ spec.layout_of entities) }
{
    let regions = regions_of(alloc, &entities)?;
    let first = vec![in alloc; 0; total as usize]?;
    place_all(&mut entities);
    Ok(Layout {
        regions,
        entities,
        total,
        first: Nums::from_vec(first),
    })
}

/// Where the entities of a file are in storage: each stored one where those before it end, a region of its own, and every
/// unit opens as 0. Dummy arguments and constants stay as they are.
///
/// None exactly where they take more storage units than there may be. `NoMemory` where no memory was to be had.
pub fn layout_of(alloc: Global, entities: Entities) -> Result<Option<Layout>, NoMemory>
    ensures { IfOk result (λ layout. layout ≡ spec.limited_layout entities) }
{
    match total_units(&entities) {
        None => Ok(None),
        Some(total) => Ok(Some(layout_within(alloc, entities, total)?)),
    }
}
