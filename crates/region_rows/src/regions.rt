//! The regions that copies and partial results of the rows are reserved for.
ghost use Rattle.std.specs.Prelude.{◌≡◌, true, IfOk};
ghost use Rattle.region_rows.specs.Regions.{IsHeld, layout_regions, numbers, ops};

use f77_ast::entities::Entities;
use f77_ast::program::{Layout, Region};
use hyb_base::list::List;
use hyb_base::no_memory::NoMemory;
use hyb_base::nums::Nums;
use hyb_base::ops::RedOp;
use red_ops::Ops;
use std::alloc::Global;

/// The number of slots.
pub const WINDOW: u32 = 3;

/// The number of cells.
pub const TOTAL: u32 = 1_001_000;

/// The number of cells of the small regions, side by side from address 0: two for each operator.
pub const SMALL: u32 = 16;

/// The first address of the great region, of 1,000,000 cells.
pub const GREAT: u32 = 1000;

/// Storage of eight regions of two cells side by side, and one of 1,000,000 far from them.
pub fn layout(alloc: Global) -> Result<Layout, NoMemory>
    ensures regions { IfOk result (λ layout. layout.regions ≡ layout_regions) }
    ensures total { IfOk result (λ layout. layout.total ≡ 1001000) }
{
    let regions = Vec::from_array(
        alloc,
        [
            Region { start: 0, len: 2 },
            Region { start: 2, len: 2 },
            Region { start: 4, len: 2 },
            Region { start: 6, len: 2 },
            Region { start: 8, len: 2 },
            Region { start: 10, len: 2 },
            Region { start: 12, len: 2 },
            Region { start: 14, len: 2 },
            Region {
                start: 1000,
                len: 1_000_000,
            },
        ],
    )?;
    Ok(Layout {
        regions: List::from_vec(regions),
        entities: Entities::new(alloc),
        total: TOTAL,
        first: Nums::new(alloc),
    })
}

/// The numbers of all regions, falling.
pub fn falling_numbers(alloc: Global) -> Result<Nums, NoMemory>
    ensures { IfOk result (λ nums. nums ≡ numbers) }
{
    Ok(Nums::from_vec(Vec::from_array(alloc, [8, 7, 6, 5, 4, 3, 2, 1, 0])?))
}

/// The operators of the regions, in that order.
pub fn falling_ops(alloc: Global) -> Result<Ops, NoMemory>
    ensures { IfOk result (λ list. list ≡ ops) }
{
    let ops = Vec::from_array(
        alloc,
        [
            RedOp::Add,
            RedOp::Neqv,
            RedOp::Eqv,
            RedOp::Or,
            RedOp::And,
            RedOp::Min,
            RedOp::Max,
            RedOp::Mul,
            RedOp::Add,
        ],
    )?;
    Ok(List::from_vec(ops))
}

/// Whether an address is in one of the regions.
pub fn is_held(address: u32) -> bool
    ensures { result ≡ true → IsHeld address }
{
    if address < SMALL {
        return true;
    }
    GREAT <= address && address < TOTAL
}
