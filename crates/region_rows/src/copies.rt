//! Copies of the rows, and the cells that they are committed to.
ghost use Rattle.std.specs.Prelude.{◌≡◌, ◌≤◌, ◌+◌, ℕ, true, All, length};
ghost use Rattle.slot_rows.specs.Rows.{window_of, regions_of};
ghost use Rattle.slot_rows.specs.Spans.{has_address};
ghost use Rattle.priv_copies.specs.Copies.{rows_of};
ghost use Rattle.region_rows.specs.Memory.{values_of};
ghost use Rattle.region_rows.specs.Regions.{IsHeld};

use crate::memory::Memory;
use crate::regions::{TOTAL, WINDOW, falling_numbers, is_held, layout};
use hyb_base::cells::Cells;
use hyb_base::no_memory::NoMemory;
use priv_copies::Copies;
use std::alloc::Global;

/// Copies, and the cells that they are committed to.
#[derive(Drop)]
pub struct CopiesStage {
    copies: Copies,
    cells: Memory,
    ghost window: { window_of (rows_of copies) ≡ 3 },
    ghost size: { length (values_of cells) ≡ 1001000 },
    ghost held: { (a : ℕ) → IsHeld a → has_address (regions_of (rows_of copies)) a ≡ true },
    ghost within: { All (λ r. r.start + r.len ≤ 1001000) (regions_of (rows_of copies)) },
}

impl CopiesStage {
    /// Nothing written, and cells of 0.
    pub fn new(alloc: Global) -> Result<CopiesStage, NoMemory> {
        let layout = layout(alloc)?;
        let numbers = falling_numbers(alloc)?;
        let copies = Copies::reserve(alloc, WINDOW, &numbers, &layout)?;
        let cells = Memory::new(alloc, TOTAL as usize)?;
        Ok(CopiesStage { copies, cells })
    }

    /// The cells.
    pub fn cells(&self) -> &Memory {
        &self.cells
    }

    /// Sets a cell. False where there is none.
    pub fn set(&mut self, address: u32, value: i64) -> bool {
        if address >= TOTAL {
            return false;
        }
        self.cells.put(address, value);
        true
    }

    /// What a slot wrote to an address: none where there is no such slot or address.
    pub fn get(&self, slot: u32, address: u32) -> Option<Option<i64>> {
        if slot >= WINDOW || !is_held(address) {
            return None;
        }
        Some(self.copies.get(slot, address))
    }

    /// Writes for a slot. False where there is no such slot or address.
    pub fn put(&mut self, slot: u32, address: u32, value: i64) -> bool {
        if slot >= WINDOW || !is_held(address) {
            return false;
        }
        self.copies.put(slot, address, value);
        true
    }

    /// Commits what a slot wrote. False where there is no such slot.
    pub fn commit(&mut self, slot: u32) -> bool {
        if slot >= WINDOW {
            return false;
        }
        self.copies.commit(slot, &mut self.cells);
        true
    }

    /// Forgets what a slot wrote. False where there is no such slot.
    pub fn clear(&mut self, slot: u32) -> bool {
        if slot >= WINDOW {
            return false;
        }
        self.copies.clear(slot);
        true
    }
}
