//! Whether copies and partial results can be reserved.
ghost use Rattle.std.specs.Prelude.{◌≡◌, ◌≤◌, ◌+◌, pos, [], ◌∷◌, All, IfOk, length};
ghost use Rattle.std.specs.List.{IsDistinct};
ghost use Rattle.slot_rows.specs.Rows.{regions_named, AreNamed};
ghost use Rattle.slot_rows.specs.Spans.{overlap};
ghost use Rattle.region_rows.specs.Regions.{cells_from_0};

use crate::script::small;
use f77_ast::entities::Entities;
use f77_ast::program::{Layout, Region};
use hyb_base::list::List;
use hyb_base::nums::Nums;
use hyb_base::ops::RedOp;
use priv_copies::Copies;
use red_ops::{Ops, Partials};
use std::alloc::{AllocError, Global};

/// Storage of one region, from address 0 on.
fn one_region(alloc: Global, cells: u32) -> Result<Layout, AllocError>
    ensures regions { IfOk result (λ layout. layout.regions ≡ cells_from_0 cells ∷ []) }
    ensures total { IfOk result (λ layout. layout.total ≡ cells) }
{
    let regions = Vec::from_array(
        alloc,
        [Region {
            start: 0,
            len: cells,
        }],
    )?;
    Ok(Layout {
        regions: List::from_vec(regions),
        entities: Entities::new(alloc),
        total: cells,
        first: Nums::new(alloc),
    })
}

/// The number of the first region.
fn first_region(alloc: Global) -> Result<Nums, AllocError>
    ensures { IfOk result (λ nums. nums ≡ pos 0 ∷ []) }
{
    Ok(Nums::from_vec(Vec::from_array(alloc, [0])?))
}

/// Storage of no region.
fn no_region(alloc: Global) -> Layout
    ensures { result.regions ≡ [] }
{
    Layout {
        regions: List::new(alloc),
        entities: Entities::new(alloc),
        total: 0,
        first: Nums::new(alloc),
    }
}

/// What a call answers that may want memory.
fn answer(made: bool) -> &'static str {
    if made { "OK" } else { "NO MEMORY" }
}

/// Reserves copies and partial results, and shows what that answers.
fn reserve(
    text: &mut String,
    alloc: Global,
    window: u32,
    numbers: &Nums,
    ops: &Ops,
    layout: &Layout,
) -> Result<(), AllocError>
    requires named { AreNamed layout.now.regions numbers.now }
    requires apart { IsDistinct overlap (regions_named layout.now.regions numbers.now) }
    requires within { All (λ r. r.start + r.len ≤ layout.now.total) (regions_named layout.now.regions numbers.now) }
    requires ops { length ops.now ≡ length (regions_named layout.now.regions numbers.now) }
{
    let copies = Copies::reserve(alloc, window, numbers, layout).is_ok();
    let partials = Partials::reserve(alloc, window, numbers, ops, layout).is_ok();
    writeln!(text, "copies {}", answer(copies))?;
    writeln!(text, "partials {}", answer(partials))
}

/// Reserves them over no region.
fn reserve_none(text: &mut String, alloc: Global, window: u32) -> Result<(), AllocError> {
    let numbers = Nums::new(alloc);
    let ops = List::new(alloc);
    let layout = no_region(alloc);
    reserve(text, alloc, window, &numbers, &ops, &layout)
}

/// Reserves them over one region.
fn reserve_one(
    text: &mut String,
    alloc: Global,
    window: u32,
    cells: u32,
) -> Result<(), AllocError> {
    let numbers = first_region(alloc)?;
    let ops = List::from_vec(Vec::from_array(alloc, [RedOp::Add])?);
    let layout = one_region(alloc, cells)?;
    reserve(text, alloc, window, &numbers, &ops, &layout)
}

/// What reserving answers, for the words ` WINDOW CELLS` over one region of so many cells, and for ` WINDOW` over none.
pub fn given(alloc: Global, words: &[u8]) -> Result<String, AllocError> {
    let mut text = String::new(alloc);
    match (small(words, 1), small(words, 2)) {
        (None, _) => text.push_str("NO WINDOW\n")?,
        (Some(window), None) => reserve_none(&mut text, alloc, window)?,
        (Some(window), Some(cells)) => reserve_one(&mut text, alloc, window, cells)?,
    }
    Ok(text)
}
