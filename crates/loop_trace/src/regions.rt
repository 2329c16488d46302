//! What is known of the regions of a layout.
ghost use Rattle.std.specs.Prelude.{◌≡◌, [], IfOk, map};
ghost use Rattle.loop_trace.specs.Marks.{verdict_from, unused};
ghost use Rattle.loop_trace.specs.Places.{IsPlace, ReadAt, WriteAt};

use crate::marks::Marks;
use dependence::modes::{Pair, Verdict};
use f77_ast::program::Region;
use hyb_base::list::List;
use hyb_base::no_memory::NoMemory;
use hyb_base::ops::RedOp;
use std::alloc::{AllocError, Global};

/// The place of the region of an address, by binary search.
pub(crate) fn region_at(starts: &[u32], address: u32) -> usize
    ensures { IsPlace starts.now address result }
{
    let mut low = 0;
    let mut high = starts.len();
    while low + 1 < high {
        let middle = low + (high - low) / 2;
        if starts[middle] <= address {
            low = middle;
        } else {
            high = middle;
        }
    }
    low
}

/// The least addresses of regions.
pub(crate) fn starts_of(alloc: Global, regions: &[Region]) -> Result<Vec<u32>, AllocError>
    ensures { IfOk result (λ v. v.items ≡ map (λ region. region.start) regions.now) }
{
    regions.iter().map(|region| region.start).collect(alloc)
}

/// Marks of regions without accesses.
pub(crate) fn unused_marks(alloc: Global, regions: &[Region]) -> Result<Vec<Marks>, AllocError>
    ensures { IfOk result (λ v. v.items ≡ map (λ region. unused) regions.now) }
{
    regions.iter().map(|_region| Marks::unused()).collect(alloc)
}

/// A region at a place with a read more.
pub(crate) fn note_read(regions: &mut [Marks], place: usize, by: Option<RedOp>, found: Option<Pair>)
    ensures { ReadAt by found place regions.old regions.new }
{
    if place < regions.len() {
        let marks = regions[place];
        regions[place] = marks.after_read(by, found);
    }
}

/// A region at a place with a write more.
pub(crate) fn note_write(
    regions: &mut [Marks],
    place: usize,
    by: Option<RedOp>,
    found: Option<Pair>,
)
    ensures { WriteAt by found place regions.old regions.new }
{
    if place < regions.len() {
        let marks = regions[place];
        regions[place] = marks.after_write(by, found);
    }
}

/// The verdict by what is known of each region.
pub(crate) fn verdict_of(alloc: Global, regions: &[Marks]) -> Result<Verdict, NoMemory>
    ensures { IfOk result (λ v. v ≡ verdict_from regions.now []) }
{
    let mut modes = List::new(alloc);
    for marks in regions {
        match marks.judged() {
            Ok(judged) => modes.push(judged)?,
            Err(pair) => return Ok(Verdict::Flow(pair)),
        }
    }
    Ok(Verdict::Independent(modes))
}
