//! Private copies.

use f77_ast::program::Layout;
use hyb_base::cells::Cells;
use hyb_base::no_memory::NoMemory;
use hyb_base::nums::Nums;
use slot_rows::rows::Rows;
use std::alloc::Global;

/// For each slot of a window, what it wrote to the addresses of some regions.
#[derive(Drop)]
pub struct Copies {
    rows: Rows,
}

impl Copies {
    ghost use Rattle.std.specs.Prelude.{◌≡◌, ◌<◌, ◌≤◌, ◌+◌, ℕ, true, None, Some, All, IfOk, length};
    ghost use Rattle.std.specs.List.{IsDistinct};
    ghost use Rattle.slot_rows.specs.Spans.{overlap, has_address};
    ghost use Rattle.slot_rows.specs.Rows.{window_of, regions_of, regions_named, AreNamed, number_at, Writes, Empties};
    ghost use Rattle.priv_copies.specs.Copies.{rows_of, Overlays};

    /// Copies for a window of slots and the regions of these numbers, in which nothing is written.
    ///
    /// The numbers are those of regions of the layout, in any order, of which no two have an address in common. After an
    /// error nothing was made.
    pub fn reserve(
        alloc: Global,
        window: u32,
        regions: &Nums,
        layout: &Layout,
    ) -> Result<Copies, NoMemory>
        requires named { AreNamed layout.now.regions regions.now }
        requires apart { IsDistinct overlap (regions_named layout.now.regions regions.now) }
        requires within { All (λ r. r.start + r.len ≤ layout.now.total) (regions_named layout.now.regions regions.now) }
        ensures regions { IfOk result (λ copies. regions_of (rows_of copies) ≡ regions_named layout.now.regions regions.now) }
        ensures window { IfOk result (λ copies. window_of (rows_of copies) ≡ window) }
        ensures none { IfOk result (λ copies. (slot address : ℕ) → number_at (rows_of copies) slot address ≡ None) }
    {
        Ok(Copies {
            rows: Rows::reserve(alloc, window, regions, layout)?,
        })
    }

    /// What a slot wrote to an address: none exactly where it hasn't written it.
    pub fn get(&self, slot: u32, address: u32) -> Option<i64>
        requires slot { slot < window_of (rows_of self.now) }
        requires address { has_address (regions_of (rows_of self.now)) address ≡ true }
        ensures { result ≡ number_at (rows_of self.now) slot address }
    {
        self.rows.get(slot, address)
    }

    /// Writes to an address for a slot. Takes no memory.
    pub fn put(&mut self, slot: u32, address: u32, value: i64)
        requires slot { slot < window_of (rows_of self.old) }
        requires address { has_address (regions_of (rows_of self.old)) address ≡ true }
        ensures { Writes (rows_of self.old) (rows_of self.new) slot address (Some value) }
    {
        self.rows.put(slot, address, value);
    }

    /// Puts what a slot wrote into cells, and nothing else; then the slot has written nothing. Takes time that grows with what
    /// the slot wrote alone, and no memory.
    pub fn commit<C: Cells>(&mut self, slot: u32, cells: &mut C)
        requires slot { slot < window_of (rows_of self.old) }
        requires within { All (λ r. r.start + r.len ≤ length (C.values cells.old)) (regions_of (rows_of self.old)) }
        ensures values { Overlays (number_at (rows_of self.old) slot) (C.values cells.old) (C.values cells.new) }
        ensures cleared { Empties (rows_of self.old) (rows_of self.new) slot }
        ensures same_reads { C.reads cells.new ≡ C.reads cells.old }
        ensures same_test { C.may_get cells.new ≡ C.may_get cells.old }
    {
        while let Some((address, value)) = self.rows.take(slot) {
            cells.put(address, value);
        }
    }

    /// Forgets what a slot wrote.
    pub fn clear(&mut self, slot: u32)
        requires { slot < window_of (rows_of self.old) }
        ensures { Empties (rows_of self.old) (rows_of self.new) slot }
    {
        self.rows.clear(slot);
    }
}
