//! Rows over cells of which each has a mode.
ghost use Rattle.std.specs.Prelude.{◌≡◌, ◌≤◌, All, length};

use crate::cell_mode::CellMode;
use crate::own_row::{OwnRow, empty_rows};
use hyb_base::cells::Cells;
use hyb_base::no_memory::NoMemory;
use red_ops::identity;
use region_run::rows::Rows;
use std::alloc::Global;

/// A row for each place of a window, over cells of which the first have these modes; the others are shared.
#[derive(Drop)]
pub struct ModeRows {
    /// The modes.
    modes: Vec<CellMode>,
    /// The rows.
    rows: Vec<OwnRow>,
    ghost places: { All (λ row. length row.values.items ≡ length modes.items) rows.items },
    ghost few: { length modes.items ≤ 256 },
}

impl ModeRows {
    ghost use Rattle.std.specs.Prelude.{◌≢◌, ◌<◌, ℕ, None, IfOk, IsTrue};
    ghost use Rattle.interleaving.specs.Machine.{put};
    ghost use Rattle.interleaving.specs.Region.{merged};
    ghost use Rattle.region_run.specs.Machine.{operators, store_of_cells};
    ghost use Rattle.turn_rows.specs.CellModes.{mode_of, mode_at, own_in, count_of};

    /// Rows for the places of a window, each without a value of its own, where the first cells have these modes.
    pub fn new(alloc: Global, modes: Vec<CellMode>, window: u32) -> Result<ModeRows, NoMemory>
        requires { length modes.items ≤ 256 }
        ensures count { IfOk result (λ rows. count_of rows ≡ window) }
        ensures clear { IfOk result (λ rows. (row : ℕ) → own_in rows row ≡ (λ a. None)) }
    {
        let rows = empty_rows(alloc, window, modes.len())?;
        Ok(ModeRows { modes, rows })
    }

    /// The mode of a cell.
    fn mode(&self, address: u32) -> CellMode
        ensures { mode_of result ≡ mode_at self.now address }
    {
        match self.modes.get(address as usize) {
            None => CellMode::Shared,
            Some(mode) => *mode,
        }
    }

    /// Sets a row's own value of a cell.
    fn set_own(&mut self, row: u32, address: u32, own: Option<i64>)
        requires row { row < count_of self.old }
        requires place { address < length self.old.modes.items }
        ensures own { own_in self.new row ≡ put (own_in self.old row) address own }
        ensures others { (other : ℕ) → other ≢ row → own_in self.new other ≡ own_in self.old other }
        ensures same_modes { self.new.modes ≡ self.old.modes }
        ensures same_count { count_of self.new ≡ count_of self.old }
    {
        self.rows[row as usize].set(address, own);
    }

    /// Commits a row at one cell.
    fn commit_cell<C: Cells>(&mut self, row: u32, address: u32, cells: &mut C)
        requires row { row < count_of self.old }
        requires place { address < length self.old.modes.items }
        requires held { address < length (C.values cells.old) }
        requires allowed { (a : ℕ) → IsTrue (C.may_get cells.old a) }
        ensures store { store_of_cells (C.values cells.new) ≡ put (store_of_cells (C.values cells.old)) address (merged operators (mode_at self.old address) (store_of_cells (C.values cells.old) address) (own_in self.old row address)) }
        ensures same_length { length (C.values cells.new) ≡ length (C.values cells.old) }
        ensures same_test { C.may_get cells.new ≡ C.may_get cells.old }
        ensures own { own_in self.new row ≡ put (own_in self.old row) address None }
        ensures others { (other : ℕ) → other ≢ row → own_in self.new other ≡ own_in self.old other }
        ensures same_modes { self.new.modes ≡ self.old.modes }
        ensures same_count { count_of self.new ≡ count_of self.old }
    {
        let own = self.rows[row as usize].get(address);
        let value = cells.get(address);
        cells.put(address, self.mode(address).merged(value, own));
        self.set_own(row, address, None);
    }
}

impl Rows for ModeRows {
    ghost use Rattle.turn_rows.specs.CellModes.{mode_at, own_in, count_of};

    ghost modes = { mode_at };

    ghost count = { count_of };

    ghost total = { λ rows. 256 };

    ghost own = { own_in };

    fn read<C: Cells>(&self, row: u32, address: u32, cells: &mut C) -> i64 {
        match self.mode(address) {
            CellMode::Shared => cells.get(address),
            CellMode::Private => match self.rows[row as usize].get(address) {
                None => cells.get(address),
                Some(copy) => copy,
            },
            CellMode::Reduce(op) => match self.rows[row as usize].get(address) {
                None => identity(op),
                Some(partial) => partial,
            },
        }
    }

    fn write<C: Cells>(&mut self, row: u32, address: u32, value: i64, cells: &mut C) {
        match self.mode(address) {
            CellMode::Shared => cells.put(address, value),
            CellMode::Private => self.set_own(row, address, Some(value)),
            CellMode::Reduce(_) => self.set_own(row, address, Some(value)),
        }
    }

    fn commit<C: Cells>(&mut self, row: u32, cells: &mut C) {
        for address in 0..self.modes.len() {
            self.commit_cell(row, address as u32, cells);
        }
    }
}
