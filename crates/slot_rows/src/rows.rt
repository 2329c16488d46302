//! Numbers of their own for the slots of a window.
ghost use Rattle.std.specs.Prelude.{◌≡◌, ◌++◌, ℕ, None, All, IfOk, OnOk, length, vec_len};
ghost use Rattle.std.specs.List.{filter_map};
ghost use Rattle.std.specs.Option.{option_to_list};
ghost use Rattle.slot_rows.specs.Regions.{region_at};
ghost use Rattle.slot_rows.specs.Row.{number_in, units_in};
ghost use Rattle.slot_rows.specs.Table.{addresses_in};

use crate::row::Row;
use crate::table::Table;
use f77_ast::program::{Layout, Region};
use hyb_base::no_memory::NoMemory;
use hyb_base::nums::Nums;
use std::alloc::Global;

/// A number, or none, for each slot of a window and each address of some regions.
#[derive(Drop)]
pub struct Rows {
    table: Table,
    rows: Vec<Row>,
    ghost units: { All (λ row. units_in row ≡ length (addresses_in table)) rows.items },
}

impl Rows {
    ghost use Rattle.std.specs.Prelude.{◌<◌, ◌≤◌, ◌+◌, true, Some, IfNone, IfSome};
    ghost use Rattle.std.specs.List.{IsDistinct};
    ghost use Rattle.slot_rows.specs.Spans.{overlap, has_address, place_with};
    ghost use Rattle.slot_rows.specs.Rows.{window_of, regions_of, regions_named, AreNamed, number_at, Writes, Empties};

    /// Rows for a window of slots and the regions of these numbers, in which nothing is written.
    ///
    /// The numbers are those of regions of the layout, in any order, of which no two have an address in common. After an
    /// error nothing was made.
    pub fn reserve(
        alloc: Global,
        window: u32,
        regions: &Nums,
        layout: &Layout,
    ) -> Result<Rows, NoMemory>
        requires named { AreNamed layout.now.regions regions.now }
        requires apart { IsDistinct overlap (regions_named layout.now.regions regions.now) }
        requires within { All (λ r. r.start + r.len ≤ layout.now.total) (regions_named layout.now.regions regions.now) }
        ensures regions { IfOk result (λ rows. regions_of rows ≡ regions_named layout.now.regions regions.now) }
        ensures window { IfOk result (λ rows. window_of rows ≡ window) }
        ensures none { IfOk result (λ rows. (slot address : ℕ) → number_at rows slot address ≡ None) }
    {
        // Read, so that its range is known.
        let _total = layout.total;
        let table = Table::new(alloc, named(alloc, regions.as_slice(), layout)?)?;
        let units = table.units();
        if (window as usize).checked_mul(units).is_none() {
            return Err(NoMemory);
        }
        let rows = empty_rows(alloc, window, units)?;
        Ok(Rows { table, rows })
    }

    /// The number at an address in a slot, where one is written.
    pub fn get(&self, slot: u32, address: u32) -> Option<i64>
        requires slot { slot < window_of self.now }
        requires address { has_address (regions_of self.now) address ≡ true }
        ensures { result ≡ number_at self.now slot address }
    {
        self.rows[slot as usize].get(self.table.unit_of(address))
    }

    /// Writes a number at an address in a slot.
    pub fn put(&mut self, slot: u32, address: u32, number: i64)
        requires slot { slot < window_of self.old }
        requires address { has_address (regions_of self.old) address ≡ true }
        ensures { Writes self.old self.new slot address (Some number) }
    {
        let unit = self.table.unit_of(address);
        self.rows[slot as usize].put(unit, number);
    }

    /// The place, among the regions that the rows were reserved for, of the one that has an address.
    pub fn place_of(&self, address: u32) -> usize
        requires { has_address (regions_of self.now) address ≡ true }
        ensures place { result ≡ place_with (regions_of self.now) address }
        ensures within { result < length (regions_of self.now) }
    {
        self.table.place_of(address)
    }

    /// Some address at which a number is written in a slot, and the number, which then isn't written any more: none exactly
    /// where nothing is written in the slot. Takes constant time.
    pub fn take(&mut self, slot: u32) -> Option<(u32, i64)>
        requires { slot < window_of self.old }
        ensures none { IfNone result (Empties self.old self.new slot × ((address : ℕ) → number_at self.old slot address ≡ None)) }
        ensures address { IfSome result (λ p. has_address (regions_of self.old) p.0 ≡ true) }
        ensures was { IfSome result (λ p. number_at self.old slot p.0 ≡ Some p.1) }
        ensures taken { IfSome result (λ p. Writes self.old self.new slot p.0 None) }
    {
        match self.rows[slot as usize].take() {
            None => None,
            Some((unit, number)) => Some((self.table.address_of(unit), number)),
        }
    }

    /// Leaves nothing written in a slot, in time that grows with what was written there alone.
    pub fn clear(&mut self, slot: u32)
        requires { slot < window_of self.old }
        ensures { Empties self.old self.new slot }
    {
        self.rows[slot as usize].clear();
    }
}

/// The regions of these numbers.
fn named(alloc: Global, numbers: &[i64], layout: &Layout) -> Result<Vec<Region>, NoMemory>
    ensures { IfOk result (λ regions. regions.items ≡ filter_map (region_at layout.now.regions) numbers.now) }
{
    let mut regions = Vec::with_capacity(alloc, numbers.len())?;
    for number in numbers {
        push_some(&mut regions, region_at(layout, *number))?;
    }
    Ok(regions)
}

/// Adds a region last, where there is one. A function of its own, since the join after `match` loses facts.
fn push_some(regions: &mut Vec<Region>, region: Option<Region>) -> Result<(), NoMemory>
    ensures { OnOk result (regions.new.items ≡ regions.old.items ++ option_to_list region) }
{
    if let Some(region) = region {
        regions.push(region)?;
    }
    Ok(())
}

/// The region of a number.
fn region_at(layout: &Layout, number: i64) -> Option<Region>
    ensures { result ≡ region_at layout.now.regions number }
{
    match usize::try_from(number) {
        Ok(place) => layout.regions.get(place).copied(),
        Err(_) => None,
    }
}

/// So many rows of so many units, without a number.
fn empty_rows(alloc: Global, count: u32, units: usize) -> Result<Vec<Row>, NoMemory>
    ensures count { IfOk result (λ rows. vec_len rows ≡ count) }
    ensures units { IfOk result (λ rows. All (λ row. units_in row ≡ units) rows.items) }
    ensures none { IfOk result (λ rows. All (λ row. (u : ℕ) → number_in row u ≡ None) rows.items) }
{
    let mut rows = Vec::with_capacity(alloc, count as usize)?;
    for _made in 0..count {
        rows.push(Row::reserve(alloc, units)?)?;
    }
    Ok(rows)
}
