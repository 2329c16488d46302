//! The region of a loop's iterations: its beginning, one step, its end.
ghost use Rattle.std.specs.Prelude.{◌≡◌, ◌≢◌, ◌↔◌, ◌<◌, ◌≤◌, ◌+◌, ◌^◌, ℕ, ℤ, [], None, Some, IsTrue, IfSome, IfOk, OnOk, true, false, length, vec_capacity, if◌then◌else◌, slice_index_or, slice_set, All};
ghost use Rattle.std.specs.List.{remove};
ghost use Rattle.interleaving.specs.OwnCells.{Owner};
ghost use Rattle.interleaving.specs.Picks.{index_at, picked};
ghost use Rattle.interleaving.specs.Region.{Iteration, advanced, settled, step_at};
ghost use Rattle.region_run.specs.Asked.{asked_of, is_end, is_fault};
ghost use Rattle.region_run.specs.Live.{iteration_of, all_from};
ghost use Rattle.region_run.specs.Machine.{loop_machine, store_of_cells};

use crate::asks::{Asked, Asks};
use crate::live::Live;
use crate::rows::Rows;
use hyb_base::cells::Cells;
use hyb_base::no_memory::NoMemory;
use std::alloc::Global;
use std::collections::VecDeque;

/// The iterations of a loop that take their steps interleaved, over cells that are passed to each call.
///
/// The iterations in the window are live: they have begun, and aren't committed. In the fields iterations are counted from 0
/// over the whole loop.
#[derive(Drop)]
pub struct Running<P, R> {
    /// The live iterations, in order.
    pub(crate) live: VecDeque<Live<P>>,
    /// The numbers of the unfinished ones, in order: the place of a pick is an index.
    pub(crate) unfinished: Vec<u64>,
    /// How many are committed: the number of the first live one.
    pub(crate) committed: u64,
    /// The number of the first that hasn't begun.
    pub(crate) begun: u64,
    /// How many haven't begun.
    pub(crate) left: u64,
    /// How many are live at most.
    pub(crate) window: u64,
    /// The process with which the loop begins.
    pub(crate) entry: P,
    /// The address of the loop's variable.
    pub(crate) variable: u32,
    /// The copies and partials.
    pub(crate) rows: R,
}

/// The answer to a pick. Iterations are counted from 1 over the whole loop.
#[derive(Clone, Copy)]
pub enum Advanced<F> {
    /// The picked iteration took a step.
    Ran {
        /// Its number.
        iteration: u64,
        /// The event of its process.
        asked: Asked<F>,
    },
    /// All iterations were committed before, and the pick isn't used.
    Over,
    /// The picked iteration met a fault in place of a step.
    Faulted {
        /// Its number.
        iteration: u64,
        /// The fault.
        fault: F,
        /// The line of the statement at which its process is.
        line: u32,
    },
}

impl<P: Asks, R: Rows> Running<P, R> {
    ghost use Rattle.region_run.specs.Advanced.{CameTo, answer_to, has_run};
    ghost use Rattle.region_run.specs.declared.running.Advanced.TheVariants.{Over};
    ghost use Rattle.region_run.specs.Live.{DidStep, ChangedAt};
    ghost use Rattle.region_run.specs.Running.{live_of, pending_of, region_of, trips_of, HoldsTogether, IsRunning, SameLoop, HasBegun, Began, Committed, IsEmpty, Grew, is_first_finished};
    ghost use Rattle.std.specs.VecDeque.{deque_capacity};

    /// The region of a loop that begins with the process `entry`, before its first step. `variable` is the address of the loop's
    /// variable. All memory of the region is taken here: a process for each place of the window, and the lists.
    pub fn begin(
        alloc: Global,
        program: &P::Program,
        entry: &P,
        variable: u32,
        trips: u64,
        window: u32,
        rows: R,
    ) -> Result<Running<P, R>, NoMemory>
        requires entry { P.is_of program.now entry.now }
        requires wide { 0 < window }
        requires trips { window ≤ trips }
        requires rows { window ≤ R.count rows }
        requires clear { (row : ℕ) → row < window → R.own rows row ≡ (λ a. None) }
        ensures { IfOk result (HasBegun (P.is_of program.now) P.meant (P.start program.now) R.count R.own entry.now variable trips window rows) }
    {
        let mut running = Running::empty(alloc, entry, variable, trips, window, rows)?;
        for row in 0..window {
            running.grow(alloc, program, row)?;
        }
        Ok(running)
    }

    /// One step: the unfinished live iteration at the place that is the pick's remainder by their number takes a step, and then
    /// the leading finished ones are committed in order. It takes no memory.
    pub fn advance<C: Cells>(
        &mut self,
        program: &P::Program,
        cells: &mut C,
        pick: u64,
    ) -> Advanced<P::Fault>
        requires running { IsRunning (P.is_of program.now) P.meant R.count R.own self.old }
        requires fits { P.total program.now ≡ length (C.values cells.old) }
        requires rows_fit { R.total self.old.rows ≡ length (C.values cells.old) }
        requires allowed { (a : ℕ) → IsTrue (C.may_get cells.old a) }
        ensures next { CameTo result (advanced (loop_machine P.event P.resumed P.done program.now) (R.modes self.old.rows) self.old.window (region_of P.meant (P.start program.now) R.own self.old (C.values cells.old)) pick)
            (region_of P.meant (P.start program.now) R.own self.new (C.values cells.new)) }
        ensures answer { result ≡ answer_to (P.event program.now) (P.fault program.now) P.line_of (picked (loop_machine P.event P.resumed P.done program.now) self.old.window (region_of P.meant (P.start program.now) R.own self.old (C.values cells.old)) pick) }
        ensures over { (result ≡ Over) ↔ (pending_of P.meant (P.start program.now) R.own self.old ≡ []) }
        ensures stays { has_run result ≡ false → region_of P.meant (P.start program.now) R.own self.new (C.values cells.new) ≡ region_of P.meant (P.start program.now) R.own self.old (C.values cells.old) }
        ensures same_reads { has_run result ≡ false → C.reads cells.new ≡ C.reads cells.old }
        ensures running { IsRunning (P.is_of program.now) P.meant R.count R.own self.new }
        ensures same { SameLoop R.modes R.count self.old self.new }
        ensures same_total { R.total self.new.rows ≡ R.total self.old.rows }
        ensures same_length { length (C.values cells.new) ≡ length (C.values cells.old) }
        ensures same_test { C.may_get cells.new ≡ C.may_get cells.old }
    {
        if self.unfinished.is_empty() {
            return Advanced::Over;
        }
        let place = (pick % self.unfinished.len() as u64) as usize;
        let iteration = self.unfinished[place] + 1;
        let asked = self.step_picked(program, place, cells);
        if let Asked::Faults(fault) = asked {
            let line = self.line_at(program, place);
            return Advanced::Faulted {
                iteration,
                fault,
                line,
            };
        }
        self.settle(program, cells);
        Advanced::Ran { iteration, asked }
    }

    /// The end of a region that is over: the loop's variable gets its last value, and `main`, which is the process with which
    /// the loop begins, leaves the loop. It takes no memory.
    pub fn finish<C: Cells>(self, program: &P::Program, main: &mut P, cells: &mut C)
        requires running { IsRunning (P.is_of program.now) P.meant R.count R.own self }
        requires over { pending_of P.meant (P.start program.now) R.own self ≡ [] }
        requires main { P.is_of program.now main.old }
        requires entry { P.meant main.old ≡ P.meant self.entry }
        requires held { self.variable < length (C.values cells.old) }
        ensures values { C.values cells.new ≡ slice_set (C.values cells.old) self.variable (P.start program.now (P.meant main.old) (trips_of self)).value }
        ensures same_reads { C.reads cells.new ≡ C.reads cells.old }
        ensures main { P.meant main.new ≡ P.following program.now (P.meant main.old) }
        ensures is_of { P.is_of program.now main.new }
        ensures same_test { C.may_get cells.new ≡ C.may_get cells.old }
    {
        let mut process = self.entry;
        let last = process.begin(program, main, self.committed);
        cells.put(self.variable, last);
        main.leave(program);
    }

    /// Takes a step of the iteration at a place among the unfinished ones.
    fn step_picked<C: Cells>(
        &mut self,
        program: &P::Program,
        place: usize,
        cells: &mut C,
    ) -> Asked<P::Fault>
        requires together { HoldsTogether (P.is_of program.now) P.meant R.count R.own self.old }
        requires place { place < length self.old.unfinished.items }
        requires fits { P.total program.now ≡ length (C.values cells.old) }
        requires allowed { (a : ℕ) → IsTrue (C.may_get cells.old a) }
        ensures next { step_at (loop_machine P.event P.resumed P.done program.now) (R.modes self.old.rows) place (store_of_cells (C.values cells.old)) (pending_of P.meant (P.start program.now) R.own self.old)
            ≡ all_from result (store_of_cells (C.values cells.new)) (pending_of P.meant (P.start program.now) R.own self.new) }
        ensures together { HoldsTogether (P.is_of program.now) P.meant R.count R.own self.new }
        ensures number { (number : ℕ) → number ≡ slice_index_or self.old.unfinished.items place number → number ≡ self.old.committed + index_at place (live_of P.meant R.own self.old) }
        ensures asked { (d : Iteration (Owner P.Meant ℤ) ℤ) → result ≡ asked_of (P.fault program.now (slice_index_or (live_of P.meant R.own self.old) (index_at place (live_of P.meant R.own self.old)) d).process.process) (P.event program.now (slice_index_or (live_of P.meant R.own self.old) (index_at place (live_of P.meant R.own self.old)) d).process.process) }
        ensures stays { is_fault result ≡ true → (live_of P.meant R.own self.new ≡ live_of P.meant R.own self.old) × (self.new.unfinished.items ≡ self.old.unfinished.items) × (C.values cells.new ≡ C.values cells.old) }
        ensures same_reads { is_fault result ≡ true → C.reads cells.new ≡ C.reads cells.old }
        ensures first { is_end result ≡ false → is_first_finished self.new.live.items ≡ is_first_finished self.old.live.items }
        ensures same_committed { self.new.committed ≡ self.old.committed }
        ensures same_left { (self.new.left ≡ self.old.left) × (self.new.begun ≡ self.old.begun) }
        ensures same { SameLoop R.modes R.count self.old self.new }
        ensures same_total { R.total self.new.rows ≡ R.total self.old.rows }
        ensures same_length { length (C.values cells.new) ≡ length (C.values cells.old) }
        ensures same_test { C.may_get cells.new ≡ C.may_get cells.old }
    {
        let at = (self.unfinished[place] - self.committed) as usize;
        let asked = self.step_live(program, at, cells);
        self.strike(place, asked);
        asked
    }

    /// Takes a step of the live iteration at an index.
    fn step_live<C: Cells>(
        &mut self,
        program: &P::Program,
        at: usize,
        cells: &mut C,
    ) -> Asked<P::Fault>
        requires at { at < length self.old.live.items }
        requires processes { All (λ live. P.is_of program.now live.process) self.old.live.items }
        requires rows { All (λ live. live.row < R.count self.old.rows) self.old.live.items }
        requires fits { P.total program.now ≡ length (C.values cells.old) }
        requires allowed { (a : ℕ) → IsTrue (C.may_get cells.old a) }
        ensures changed { ChangedAt self.old.live.items self.new.live.items at (DidStep (P.is_of program.now) P.meant (P.fault program.now) (P.event program.now) (P.resumed program.now) (P.done program.now) (R.modes self.old.rows) (R.own self.old.rows) (R.own self.new.rows) self.old.variable (C.values cells.old) (C.values cells.new) result) }
        ensures same_reads { is_fault result ≡ true → C.reads cells.new ≡ C.reads cells.old }
        ensures same_length { length (C.values cells.new) ≡ length (C.values cells.old) }
        ensures same_test { C.may_get cells.new ≡ C.may_get cells.old }
        ensures same_modes { R.modes self.new.rows ≡ R.modes self.old.rows }
        ensures same_count { R.count self.new.rows ≡ R.count self.old.rows }
        ensures same_total { R.total self.new.rows ≡ R.total self.old.rows }
        ensures same_room { deque_capacity self.new.live ≡ deque_capacity self.old.live }
        ensures same_rest { self.new ≡ record self.old { live = self.new.live; rows = self.new.rows } }
    {
        self.live[at].step(program, self.variable, &mut self.rows, cells)
    }

    /// Strikes the number at a place off the unfinished ones, where the step of its iteration ended it.
    fn strike(&mut self, place: usize, asked: Asked<P::Fault>)
        requires { place < length self.old.unfinished.items }
        ensures items { self.new.unfinished.items ≡ (if is_end asked then remove self.old.unfinished.items place else self.old.unfinished.items) }
        ensures places { vec_capacity self.new.unfinished ≡ vec_capacity self.old.unfinished }
        ensures rest { self.new ≡ record self.old { unfinished = self.new.unfinished } }
    {
        if let Asked::Ends = asked {
            self.unfinished.remove(place);
        }
    }

    /// The line of the iteration at a place among the unfinished ones.
    fn line_at(&self, program: &P::Program, place: usize) -> u32
        requires together { HoldsTogether (P.is_of program.now) P.meant R.count R.own self.now }
        requires place { place < length self.now.unfinished.items }
        ensures { (d : Iteration (Owner P.Meant ℤ) ℤ) → result ≡ P.line_of (slice_index_or (live_of P.meant R.own self.now) (index_at place (live_of P.meant R.own self.now)) d).process.process }
    {
        let at = (self.unfinished[place] - self.committed) as usize;
        self.live[at].process.line()
    }

    /// Commits the leading finished iterations in order.
    fn settle<C: Cells>(&mut self, program: &P::Program, cells: &mut C)
        requires together { HoldsTogether (P.is_of program.now) P.meant R.count R.own self.old }
        requires rows_fit { R.total self.old.rows ≡ length (C.values cells.old) }
        requires allowed { (a : ℕ) → IsTrue (C.may_get cells.old a) }
        ensures together { HoldsTogether (P.is_of program.now) P.meant R.count R.own self.new }
        ensures first { is_first_finished self.new.live.items ≡ false }
        ensures settled { settled (loop_machine P.event P.resumed P.done program.now) (R.modes self.old.rows) self.old.committed (store_of_cells (C.values cells.old)) (pending_of P.meant (P.start program.now) R.own self.old)
            ≡ region_of P.meant (P.start program.now) R.own self.new (C.values cells.new) }
        ensures same { SameLoop R.modes R.count self.old self.new }
        ensures same_total { R.total self.new.rows ≡ R.total self.old.rows }
        ensures same_length { length (C.values cells.new) ≡ length (C.values cells.old) }
        ensures same_test { C.may_get cells.new ≡ C.may_get cells.old }
    {
        while self.is_first_finished() {
            self.commit_first(program, cells);
        }
    }

    /// Whether the first live iteration is finished.
    fn is_first_finished(&self) -> bool
        ensures { result ≡ is_first_finished self.now.live.items }
    {
        match self.live.front() {
            Some(first) => first.finished,
            None => false,
        }
    }

    /// Commits the first live iteration, which is finished, and begins the next one in its row.
    fn commit_first<C: Cells>(&mut self, program: &P::Program, cells: &mut C)
        requires together { HoldsTogether (P.is_of program.now) P.meant R.count R.own self.old }
        requires first { is_first_finished self.old.live.items ≡ true }
        requires rows_fit { R.total self.old.rows ≡ length (C.values cells.old) }
        requires allowed { (a : ℕ) → IsTrue (C.may_get cells.old a) }
        ensures together { HoldsTogether (P.is_of program.now) P.meant R.count R.own self.new }
        ensures settled { settled (loop_machine P.event P.resumed P.done program.now) (R.modes self.old.rows) self.old.committed (store_of_cells (C.values cells.old)) (pending_of P.meant (P.start program.now) R.own self.old)
            ≡ settled (loop_machine P.event P.resumed P.done program.now) (R.modes self.old.rows) self.new.committed (store_of_cells (C.values cells.new)) (pending_of P.meant (P.start program.now) R.own self.new) }
        ensures same { SameLoop R.modes R.count self.old self.new }
        ensures same_total { R.total self.new.rows ≡ R.total self.old.rows }
        ensures fewer { length self.new.live.items + self.new.left < length self.old.live.items + self.old.left }
        ensures same_length { length (C.values cells.new) ≡ length (C.values cells.old) }
        ensures same_test { C.may_get cells.new ≡ C.may_get cells.old }
    {
        if let Some(first) = self.commit(cells) {
            self.refill(program, first);
        }
    }

    /// Commits the first live iteration, and gives it back. None where there is none.
    fn commit<C: Cells>(&mut self, cells: &mut C) -> Option<Live<P>>
        requires rows { All (λ live. live.row < R.count self.old.rows) self.old.live.items }
        requires rows_fit { R.total self.old.rows ≡ length (C.values cells.old) }
        requires allowed { (a : ℕ) → IsTrue (C.may_get cells.old a) }
        requires few { self.old.committed + 1 < 2 ^ 64 }
        ensures none { result ≡ None → self.old.live.items ≡ [] }
        ensures some { IfSome result (λ first. Committed R.modes R.own first self.old self.new (store_of_cells (C.values cells.old)) (store_of_cells (C.values cells.new))) }
        ensures same_length { length (C.values cells.new) ≡ length (C.values cells.old) }
        ensures same_test { C.may_get cells.new ≡ C.may_get cells.old }
        ensures same_modes { R.modes self.new.rows ≡ R.modes self.old.rows }
        ensures same_count { R.count self.new.rows ≡ R.count self.old.rows }
        ensures same_total { R.total self.new.rows ≡ R.total self.old.rows }
    {
        let first = self.live.pop_front()?;
        self.rows.commit(first.row, cells);
        self.committed += 1;
        Some(first)
    }

    /// Begins the next iteration, with the process and in the row of one that has been committed. Nothing where none is left.
    fn refill(&mut self, program: &P::Program, first: Live<P>)
        requires process { P.is_of program.now first.process }
        requires entry { P.is_of program.now self.old.entry }
        requires row { R.own self.old.rows first.row ≡ (λ a. None) }
        requires room { length self.old.live.items < deque_capacity self.old.live }
        requires places { length self.old.unfinished.items < vec_capacity self.old.unfinished }
        requires numbers { trips_of self.old < 2 ^ 64 }
        ensures none { self.old.left ≡ 0 → self.new ≡ self.old }
        ensures began { 0 < self.old.left → Began (P.is_of program.now) P.meant (P.start program.now) R.own first.row self.old self.new }
    {
        if self.left > 0 {
            let mut next = first;
            next.value = next.process.begin(program, &self.entry, self.begun);
            next.finished = false;
            self.live.push_back_reserved(next);
            self.unfinished.push_reserved(self.begun);
            self.left -= 1;
            self.begun += 1;
        }
    }

    /// A region of which no iteration has begun, with a window of 0 and the memory of one that has this size.
    fn empty(
        alloc: Global,
        entry: &P,
        variable: u32,
        trips: u64,
        window: u32,
        rows: R,
    ) -> Result<Running<P, R>, NoMemory>
        ensures { IfOk result (λ running. IsEmpty P.meant entry.now variable trips window rows running × ((program : P.Program) → P.is_of program entry.now → P.is_of program running.entry)) }
    {
        Ok(Running {
            live: VecDeque::with_capacity(alloc, window as usize)?,
            unfinished: Vec::with_capacity(alloc, window as usize)?,
            committed: 0,
            begun: 0,
            left: trips,
            window: 0,
            entry: entry.copy(alloc)?,
            variable,
            rows,
        })
    }

    /// The window grows by one, and the next iteration begins, in a row that none has.
    fn grow(&mut self, alloc: Global, program: &P::Program, row: u32) -> Result<(), NoMemory>
        requires together { HoldsTogether (P.is_of program.now) P.meant R.count R.own self.old }
        requires settled { is_first_finished self.old.live.items ≡ false }
        requires left { 0 < self.old.left }
        requires below { All (λ live. live.row < row) self.old.live.items }
        requires row { row < R.count self.old.rows }
        requires clear { R.own self.old.rows row ≡ (λ a. None) }
        requires full { length self.old.live.items ≡ self.old.window }
        requires room { self.old.window < deque_capacity self.old.live }
        requires places { self.old.window < vec_capacity self.old.unfinished }
        ensures { OnOk result (Grew (P.is_of program.now) P.meant (P.start program.now) R.count R.own row self.old self.new) }
    {
        let process = self.entry.copy(alloc)?;
        self.window += 1;
        let spare = Live {
            process,
            value: 0,
            row,
            finished: true,
        };
        self.refill(program, spare);
        Ok(())
    }
}
