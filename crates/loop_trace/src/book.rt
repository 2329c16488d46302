//! The book: what iterations did with addresses and with regions.
use crate::cell::Cell;
use crate::marks::Marks;
use crate::regions::{note_read, note_write, region_at, starts_of, unused_marks, verdict_of};
use dependence::modes::Verdict;
use f77_ast::program::Layout;
use f77_ast::step::Stepped;
use hyb_base::no_memory::NoMemory;
use hyb_base::ops::RedOp;
use indexmap::IndexMap;
use std::alloc::Global;

/// The accesses of a loop's iterations, as far as they decide whether the iterations are independent.
///
/// It grows with the addresses that are accessed and with the regions, not with storage or with the iterations.
#[derive(Drop)]
pub struct Book {
    /// The least address of each region.
    starts: Vec<u32>,
    /// What is known of each region.
    regions: Vec<Marks>,
    /// What is known of each address that was accessed.
    cells: IndexMap<u32, Cell>,
    /// The current iteration, counted from 1.
    iteration: u64,
}

impl Book {
    ghost use Rattle.std.specs.Prelude.{◌≡◌, [], IfOk, IsOk, OnOk, OnErr};
    ghost use Rattle.loop_trace.specs.Told.{HasRead, HasWritten, IsLaid, IsSame, KeepsTold, EndsTold, TellsMore, Told, IsRightOf, cell_at};

    /// A book that was told nothing: the current iteration is the first. The regions of the layout are one after the
    /// other from address 0 to its total, and none is empty. Takes time by the number of regions.
    pub fn new(alloc: Global, layout: &Layout) -> Result<Book, NoMemory>
        ensures { IfOk result (λ book. IsLaid layout.now → Told book layout.now [] []) }
    {
        Ok(Book {
            starts: starts_of(alloc, layout.regions.as_slice())?,
            regions: unused_marks(alloc, layout.regions.as_slice())?,
            cells: IndexMap::new(alloc),
            iteration: 1,
        })
    }

    /// What is known of an address.
    fn cell(&self, address: u32) -> Cell
        ensures { result ≡ cell_at self.now.cells address }
    {
        match self.cells.get(&address) {
            Some(cell) => *cell,
            None => Cell::untouched(),
        }
    }

    /// Notes a read.
    fn read(&mut self, address: u32, by: Option<RedOp>) -> Result<(), NoMemory>
        ensures ok { OnOk result (HasRead address by self.old self.new) }
        ensures err { OnErr result (IsSame self.old self.new) }
    {
        let cell = self.cell(address);
        self.cells.insert(address, cell.after_read(self.iteration))?;
        let place = region_at(&self.starts, address);
        note_read(
            &mut self.regions,
            place,
            by,
            cell.found_by_read(address, self.iteration),
        );
        Ok(())
    }

    /// Notes a write.
    fn write(&mut self, address: u32, by: Option<RedOp>) -> Result<(), NoMemory>
        ensures ok { OnOk result (HasWritten address by self.old self.new) }
        ensures err { OnErr result (IsSame self.old self.new) }
    {
        let cell = self.cell(address);
        self.cells
            .insert(address, cell.after_write(self.iteration))?;
        let place = region_at(&self.starts, address);
        note_write(
            &mut self.regions,
            place,
            by,
            cell.found_by_write(address, self.iteration),
        );
        Ok(())
    }

    /// The next access of the current iteration, where the step is a read or a write below the total of the layout. Other
    /// steps change nothing. What a write is to a DO isn't looked at: the caller leaves out the writes by which the judged
    /// loop's own control sets its variable. After an error the book is as before. Takes amortised constant time, and a
    /// binary search among the regions.
    pub fn touch(&mut self, step: &Stepped) -> Result<(), NoMemory>
        ensures ok { OnOk result (TellsMore step.now self.old self.new) }
        ensures err { OnErr result (KeepsTold self.old self.new) }
    {
        match step {
            Stepped::Read { address, by } => self.read(*address, *by),
            Stepped::Wrote {
                address,
                by,
                control: _,
            } => self.write(*address, *by),
            Stepped::Inner => Ok(()),
            Stepped::Printed => Ok(()),
            Stepped::Ended => Ok(()),
            Stepped::Faulted(_) => Ok(()),
        }
    }

    /// Ends the current iteration, and begins the next one, where fewer than 2^63 have ended. Takes constant time:
    /// nothing is cleared. It takes no memory, and never answers an error.
    pub fn end_iteration(&mut self) -> Result<(), NoMemory>
        ensures ok { OnOk result (EndsTold self.old self.new) }
        ensures always { IsOk result }
    {
        self.iteration = self.iteration.saturating_add(1);
        Ok(())
    }

    /// A right verdict on the traces told. An open trace counts as far as it was told. Which region and which pair are
    /// named among several is free. Takes time by the number of regions.
    pub fn verdict(&self, alloc: Global) -> Result<Verdict, NoMemory>
        ensures { IfOk result (IsRightOf self.now) }
    {
        verdict_of(alloc, &self.regions)
    }
}
