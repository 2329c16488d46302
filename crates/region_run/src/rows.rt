//! What iterations have of their own: a row of copies and partials for each iteration of a window.
ghost use Rattle.std.specs.Prelude.{◌≡◌, ◌≢◌, ◌<◌, ℕ, ℤ, Option, None, IsTrue, length};
ghost use Rattle.hyb_base.specs.declared.ops.RedOp.{RedOp};
ghost use Rattle.interleaving.specs.Modes.{Mode};
ghost use Rattle.interleaving.specs.Region.{answer_of, store_after, own_after, commit};
ghost use Rattle.region_run.specs.Machine.{operators, store_of_cells};
ghost use Rattle.region_run.specs.Reads.{is_from_cell, with_read};

use hyb_base::cells::Cells;

/// The copies and partials of a window of iterations, by the modes of cells. No call takes memory.
pub trait Rows: Drop {
    // The mode of each cell; the number of rows; the number of cells; a row's own value of a cell, where it has one.
    ghost modes: { Self → ℕ → Mode RedOp };

    ghost count: { Self → ℕ };

    ghost total: { Self → ℕ };

    ghost own: { Self → ℕ → ℕ → Option ℤ };

    /// What a read of a cell answers in the iteration of a row.
    fn read<C: Cells>(&self, row: u32, address: u32, cells: &mut C) -> i64
        requires row { row < count self.now }
        requires held { address < length (C.values cells.old) }
        requires allowed { (a : ℕ) → IsTrue (C.may_get cells.old a) }
        ensures value { result ≡ answer_of operators (modes self.now address) (store_of_cells (C.values cells.old) address) (own self.now row address) }
        ensures counted { C.reads cells.new ≡ with_read (is_from_cell (modes self.now address) (own self.now row address)) (C.reads cells.old) }
        ensures same_store { C.values cells.new ≡ C.values cells.old }
        ensures same_test { C.may_get cells.new ≡ C.may_get cells.old };

    /// Writes a cell in the iteration of a row: the cell itself, or the row's own value of it.
    fn write<C: Cells>(&mut self, row: u32, address: u32, value: i64, cells: &mut C)
        requires row { row < count self.old }
        requires held { address < length (C.values cells.old) }
        ensures store { store_of_cells (C.values cells.new) ≡ store_after (modes self.old address) (store_of_cells (C.values cells.old)) address value }
        ensures same_reads { C.reads cells.new ≡ C.reads cells.old }
        ensures same_length { length (C.values cells.new) ≡ length (C.values cells.old) }
        ensures same_test { C.may_get cells.new ≡ C.may_get cells.old }
        ensures own { own self.new row ≡ own_after (modes self.old address) (own self.old row) address value }
        ensures others { (other : ℕ) → other ≢ row → own self.new other ≡ own self.old other }
        ensures same_modes { modes self.new ≡ modes self.old }
        ensures same_count { count self.new ≡ count self.old }
        ensures same_total { total self.new ≡ total self.old };

    /// Commits a row: its copies and partials go into the cells, and then it has none.
    fn commit<C: Cells>(&mut self, row: u32, cells: &mut C)
        requires row { row < count self.old }
        requires fits { total self.old ≡ length (C.values cells.old) }
        requires allowed { (a : ℕ) → IsTrue (C.may_get cells.old a) }
        ensures store { store_of_cells (C.values cells.new) ≡ commit operators (modes self.old) (store_of_cells (C.values cells.old)) (own self.old row) }
        ensures same_length { length (C.values cells.new) ≡ length (C.values cells.old) }
        ensures same_test { C.may_get cells.new ≡ C.may_get cells.old }
        ensures own { own self.new row ≡ (λ a. None) }
        ensures others { (other : ℕ) → other ≢ row → own self.new other ≡ own self.old other }
        ensures same_modes { modes self.new ≡ modes self.old }
        ensures same_count { count self.new ≡ count self.old }
        ensures same_total { total self.new ≡ total self.old };
}
