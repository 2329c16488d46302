//! A live iteration, and one step of it.
ghost use Rattle.std.specs.Prelude.{◌≡◌, ◌≢◌, ◌==◌, ◌<◌, ℕ, ℤ, IsTrue, length, true, false, if◌then◌else◌};
ghost use Rattle.interleaving.specs.Region.{answer_of, store_after, own_after};
ghost use Rattle.region_run.specs.Asked.{asked_of, is_fault, IsRead, IsDone};
ghost use Rattle.region_run.specs.Live.{iteration_of, outcome_from, finished_by, step_of};
ghost use Rattle.region_run.specs.Machine.{operators, store_of_cells};
ghost use Rattle.region_run.specs.Reads.{is_from_cell, reads_cell, with_read};

use crate::asks::{Asked, Asks};
use crate::rows::Rows;
use hyb_base::cells::Cells;

/// An iteration that has begun and isn't committed.
#[derive(Drop)]
pub struct Live<P> {
    /// Its process.
    pub process: P,
    /// The value of the loop's variable in it.
    pub value: i64,
    /// The row of its copies and partials.
    pub row: u32,
    /// Whether it is finished.
    pub finished: bool,
}

impl<P: Asks> Live<P> {
    /// Takes one step.
    pub fn step<R: Rows, C: Cells>(
        &mut self,
        program: &P::Program,
        variable: u32,
        rows: &mut R,
        cells: &mut C,
    ) -> Asked<P::Fault>
        requires is_of { P.is_of program.now self.old.process }
        requires row { self.old.row < R.count rows.old }
        requires fits { P.total program.now ≡ length (C.values cells.old) }
        requires allowed { (a : ℕ) → IsTrue (C.may_get cells.old a) }
        ensures next { step_of (P.event program.now) (P.resumed program.now) (P.done program.now) (R.modes rows.old) (store_of_cells (C.values cells.old)) (iteration_of P.meant (R.own rows.old) variable self.old)
            ≡ outcome_from result (store_of_cells (C.values cells.new)) (iteration_of P.meant (R.own rows.new) variable self.new) }
        ensures asked { result ≡ asked_of (P.fault program.now (P.meant self.old.process)) (P.event program.now (P.meant self.old.process)) }
        ensures is_of { P.is_of program.now self.new.process }
        ensures counted { C.reads cells.new ≡ with_read (reads_cell variable (R.modes rows.old) (R.own rows.old self.old.row) result) (C.reads cells.old) }
        ensures same_length { length (C.values cells.new) ≡ length (C.values cells.old) }
        ensures same_test { C.may_get cells.new ≡ C.may_get cells.old }
        ensures others { (other : ℕ) → other ≢ self.old.row → R.own rows.new other ≡ R.own rows.old other }
        ensures same_modes { R.modes rows.new ≡ R.modes rows.old }
        ensures same_count { R.count rows.new ≡ R.count rows.old }
        ensures same_total { R.total rows.new ≡ R.total rows.old }
        ensures stays { is_fault result ≡ true → (iteration_of P.meant (R.own rows.new) variable self.new ≡ iteration_of P.meant (R.own rows.old) variable self.old) × (C.values cells.new ≡ C.values cells.old) }
        ensures same_row { self.new.row ≡ self.old.row }
        ensures finished { self.new.finished ≡ finished_by result self.old.finished }
    {
        let asked = self.process.ask(program);
        match asked {
            Asked::Reads { address, .. } => self.read(program, variable, address, rows, cells),
            Asked::Writes { address, value, .. } => {
                self.write(program, variable, address, value, rows, cells)
            }
            Asked::Moves => self.process.go_on(program),
            Asked::Ends => self.finished = true,
            Asked::Faults(_) => {}
        }
        asked
    }

    /// Takes a step that reads a cell.
    fn read<R: Rows, C: Cells>(
        &mut self,
        program: &P::Program,
        variable: u32,
        address: u32,
        rows: &mut R,
        cells: &mut C,
    )
        requires is_of { P.is_of program.now self.old.process }
        requires reads { IsRead (P.event program.now (P.meant self.old.process)) }
        requires row { self.old.row < R.count rows.old }
        requires held { address < length (C.values cells.old) }
        requires allowed { (a : ℕ) → IsTrue (C.may_get cells.old a) }
        ensures process { P.meant self.new.process ≡ P.resumed program.now (P.meant self.old.process) (if variable == address then self.old.value else answer_of operators (R.modes rows.old address) (store_of_cells (C.values cells.old) address) (R.own rows.old self.old.row address)) }
        ensures is_of { P.is_of program.now self.new.process }
        ensures counted { C.reads cells.new ≡ with_read (if variable == address then false else is_from_cell (R.modes rows.old address) (R.own rows.old self.old.row address)) (C.reads cells.old) }
        ensures same_store { C.values cells.new ≡ C.values cells.old }
        ensures same_test { C.may_get cells.new ≡ C.may_get cells.old }
        ensures same_value { self.new.value ≡ self.old.value }
        ensures same_rows { rows.new ≡ rows.old }
        ensures same_row { self.new.row ≡ self.old.row }
        ensures same_finished { self.new.finished ≡ self.old.finished }
    {
        let value = if variable == address {
            self.value
        } else {
            rows.read(self.row, address, cells)
        };
        self.process.resume(program, value);
    }

    /// Takes a step that writes a cell.
    fn write<R: Rows, C: Cells>(
        &mut self,
        program: &P::Program,
        variable: u32,
        address: u32,
        value: i64,
        rows: &mut R,
        cells: &mut C,
    )
        requires is_of { P.is_of program.now self.old.process }
        requires done { IsDone (P.event program.now (P.meant self.old.process)) }
        requires row { self.old.row < R.count rows.old }
        requires held { address < length (C.values cells.old) }
        ensures process { P.meant self.new.process ≡ P.done program.now (P.meant self.old.process) }
        ensures is_of { P.is_of program.now self.new.process }
        ensures store { store_of_cells (C.values cells.new) ≡ (if variable == address then store_of_cells (C.values cells.old) else store_after (R.modes rows.old address) (store_of_cells (C.values cells.old)) address value) }
        ensures same_reads { C.reads cells.new ≡ C.reads cells.old }
        ensures same_length { length (C.values cells.new) ≡ length (C.values cells.old) }
        ensures same_test { C.may_get cells.new ≡ C.may_get cells.old }
        ensures value { self.new.value ≡ (if variable == address then value else self.old.value) }
        ensures own { R.own rows.new self.old.row ≡ (if variable == address then R.own rows.old self.old.row else own_after (R.modes rows.old address) (R.own rows.old self.old.row) address value) }
        ensures others { (other : ℕ) → other ≢ self.old.row → R.own rows.new other ≡ R.own rows.old other }
        ensures same_modes { R.modes rows.new ≡ R.modes rows.old }
        ensures same_count { R.count rows.new ≡ R.count rows.old }
        ensures same_total { R.total rows.new ≡ R.total rows.old }
        ensures same_row { self.new.row ≡ self.old.row }
        ensures same_finished { self.new.finished ≡ self.old.finished }
    {
        if variable == address {
            self.value = value;
        } else {
            rows.write(self.row, address, value, cells);
        }
        self.process.go_on(program);
    }
}
