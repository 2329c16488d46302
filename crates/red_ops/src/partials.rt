//! Partial results.
ghost use Rattle.std.specs.Prelude.{◌≡◌, length, vec_len};
ghost use Rattle.slot_rows.specs.Rows.{regions_of};

use crate::ops::{apply, identity};
use f77_ast::program::Layout;
use hyb_base::cells::Cells;
use hyb_base::list::List;
use hyb_base::no_memory::NoMemory;
use hyb_base::nums::Nums;
use hyb_base::ops::RedOp;
use slot_rows::rows::Rows;
use std::alloc::Global;

/// One operator for each of some regions, in their order.
pub type Ops = List<RedOp>;

/// For each slot of a window, its partial results at the addresses of some regions.
#[derive(Drop)]
pub struct Partials {
    rows: Rows,
    ops: Vec<RedOp>,
    ghost ops_for: { vec_len ops ≡ length (regions_of rows) },
}

impl Partials {
    ghost use Rattle.std.specs.Prelude.{◌<◌, ◌≤◌, ◌+◌, ℕ, true, None, Some, All, IfOk, IsTrue, unwrap_or};
    ghost use Rattle.std.specs.List.{IsDistinct};
    ghost use Rattle.hyb_base.specs.Reduction.{identity as identity_of};
    ghost use Rattle.slot_rows.specs.Spans.{overlap, has_address};
    ghost use Rattle.slot_rows.specs.Rows.{window_of, regions_named, AreNamed, number_at, written_count, Writes, Empties};
    ghost use Rattle.red_ops.specs.Partials.{rows_of, ops_of, op_at, Combines, reads_after};

    /// Partial results for a window of slots and the regions of these numbers, each with its operator, of which none is touched.
    ///
    /// The numbers are those of regions of the layout, in any order, of which no two have an address in common. After an
    /// error nothing was made.
    pub fn reserve(
        alloc: Global,
        window: u32,
        regions: &Nums,
        ops: &Ops,
        layout: &Layout,
    ) -> Result<Partials, NoMemory>
        requires named { AreNamed layout.now.regions regions.now }
        requires apart { IsDistinct overlap (regions_named layout.now.regions regions.now) }
        requires within { All (λ r. r.start + r.len ≤ layout.now.total) (regions_named layout.now.regions regions.now) }
        requires ops { length ops.now ≡ length (regions_named layout.now.regions regions.now) }
        ensures regions { IfOk result (λ partials. regions_of (rows_of partials) ≡ regions_named layout.now.regions regions.now) }
        ensures window { IfOk result (λ partials. window_of (rows_of partials) ≡ window) }
        ensures ops { IfOk result (λ partials. ops_of partials ≡ ops.now) }
        ensures none { IfOk result (λ partials. (slot address : ℕ) → number_at (rows_of partials) slot address ≡ None) }
    {
        let rows = Rows::reserve(alloc, window, regions, layout)?;
        let ops = Vec::from_slice(alloc, ops.as_slice())?;
        Ok(Partials { rows, ops })
    }

    /// The partial result of a slot at an address: the identity of its region's operator where it isn't touched.
    pub fn get(&self, slot: u32, address: u32) -> i64
        requires slot { slot < window_of (rows_of self.now) }
        requires address { has_address (regions_of (rows_of self.now)) address ≡ true }
        ensures { result ≡ unwrap_or (number_at (rows_of self.now) slot address) (identity_of (op_at self.now address)) }
    {
        match self.rows.get(slot, address) {
            None => identity(self.op_of(address)),
            Some(partial) => partial,
        }
    }

    /// The operator of the region that has an address.
    fn op_of(&self, address: u32) -> RedOp
        requires { has_address (regions_of (rows_of self.now)) address ≡ true }
        ensures { result ≡ op_at self.now address }
    {
        self.ops[self.rows.place_of(address)]
    }

    /// Touches an address for a slot, and makes this its partial result there. Takes no memory.
    pub fn put(&mut self, slot: u32, address: u32, value: i64)
        requires slot { slot < window_of (rows_of self.old) }
        requires address { has_address (regions_of (rows_of self.old)) address ≡ true }
        ensures written { Writes (rows_of self.old) (rows_of self.new) slot address (Some value) }
        ensures ops { ops_of self.new ≡ ops_of self.old }
    {
        self.rows.put(slot, address, value);
    }

    /// Adds the partial results of a slot to cells: where it touched an address, the value there becomes what the operator gives of
    /// it and the partial result; then the slot has touched nothing. Takes time that grows with what the slot touched alone,
    /// and no memory.
    pub fn commit<C: Cells>(&mut self, slot: u32, cells: &mut C)
        requires slot { slot < window_of (rows_of self.old) }
        requires within { All (λ r. r.start + r.len ≤ length (C.values cells.old)) (regions_of (rows_of self.old)) }
        requires allowed { (a : ℕ) → IsTrue (C.may_get cells.old a) }
        ensures values { Combines (op_at self.old) (number_at (rows_of self.old) slot) (C.values cells.old) (C.values cells.new) }
        ensures cleared { Empties (rows_of self.old) (rows_of self.new) slot }
        ensures ops { ops_of self.new ≡ ops_of self.old }
        ensures reads { C.reads cells.new ≡ reads_after (written_count (rows_of self.old) slot (length (C.values cells.old))) (C.reads cells.old) }
        ensures same_test { C.may_get cells.new ≡ C.may_get cells.old }
    {
        while let Some((address, partial)) = self.rows.take(slot) {
            let op = self.op_of(address);
            let value = cells.get(address);
            cells.put(address, apply(op, value, partial));
        }
    }
}
