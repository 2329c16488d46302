//! The DO ranges or the IF blocks of a unit, with tables that tell at once whether one holds a place and not another.
ghost use Rattle.std.specs.Prelude.{◌≡◌, List, map, IfOk, slice_get};
ghost use Rattle.std.specs.List.{list_any};
ghost use Rattle.f77_structure.specs.declared.stretches.Stretch.{Stretch as AStretch};
ghost use Rattle.f77_shape.specs.StretchIndex.{IsStretchIndex, ends_before, mirrored};
ghost use Rattle.f77_shape.specs.Jumps.{is_entered};
ghost use Rattle.f77_shape.specs.Openers.{opens_behind};

use crate::openers::openers_of;
use f77_structure::stretches::{Stretch, holds};
use hyb_base::no_memory::NoMemory;
use std::alloc::Global;

/// The DO ranges or the IF blocks of a unit.
#[derive(Drop)]
pub struct StretchIndex {
    /// The stretches.
    pub stretches: Vec<Stretch>,
    /// The greatest place.
    pub limit: usize,
    /// For each place one more than the last place at which a stretch opens that holds it.
    pub openers: Vec<usize>,
    /// The openers of the mirrored stretches.
    pub mirrored: Vec<usize>,
}

/// A stretch, with the places counted backwards from this one.
fn mirrored(limit: usize, stretch: &Stretch) -> Stretch
    ensures { result ≡ mirrored limit stretch.now }
{
    if stretch.last < limit {
        Stretch {
            opens: limit - stretch.last - 1,
            last: limit.saturating_sub(stretch.opens).saturating_sub(1),
        }
    } else {
        Stretch { opens: 0, last: 0 }
    }
}

/// Stretches, with the places counted backwards from this one.
fn all_mirrored(
    alloc: Global,
    limit: usize,
    stretches: &[Stretch],
) -> Result<Vec<Stretch>, NoMemory>
    ensures { IfOk result (λ all. all.items ≡ map (mirrored limit) stretches.now) }
{
    let all = stretches
        .iter()
        .map(|stretch| mirrored(limit, stretch))
        .collect(alloc)?;
    Ok(all)
}

/// The stretches of a unit of `count` statements.
pub fn index_stretches(
    alloc: Global,
    count: usize,
    stretches: Vec<Stretch>,
) -> Result<StretchIndex, NoMemory>
    ensures { IfOk result (λ held. IsStretchIndex stretches.items held) }
{
    let places = count.saturating_add(1);
    let openers = openers_of(alloc, places, stretches.as_slice())?;
    let backwards = all_mirrored(alloc, count, stretches.as_slice())?;
    let mirrored = openers_of(alloc, places, backwards.as_slice())?;
    Ok(StretchIndex {
        stretches,
        limit: count,
        openers,
        mirrored,
    })
}

/// Whether one of some stretches holds a place, and opens at another one or after it.
fn one_opens_behind(stretches: &[Stretch], from: usize, to: usize) -> bool
    ensures { result ≡ list_any (opens_behind from to) stretches.now }
{
    stretches
        .iter()
        .any(|stretch| holds(stretch, to) && !(stretch.opens < from))
}

/// Whether one of some stretches holds a place, and ends before another.
fn one_ends_before(stretches: &[Stretch], from: usize, to: usize) -> bool
    ensures { result ≡ list_any (ends_before from to) stretches.now }
{
    stretches
        .iter()
        .any(|stretch| holds(stretch, to) && stretch.last < from)
}

/// The entry of a table at a place.
fn entry(table: &[usize], place: usize) -> Option<usize>
    ensures { result ≡ slice_get table.now place }
{
    table.get(place).copied()
}

impl StretchIndex {
    /// Whether one of the stretches holds a place, and opens at another one or after it. A place outside of the unit has
    /// no entry: there the stretches are searched.
    fn opens_behind(&self, from: usize, to: usize) -> bool
        ensures { (stretches : List AStretch) → IsStretchIndex stretches self.now → result ≡ list_any (opens_behind from to) stretches }
    {
        match entry(self.openers.as_slice(), to) {
            None => one_opens_behind(self.stretches.as_slice(), from, to),
            Some(opener) => from < opener,
        }
    }

    /// Whether one of the stretches holds a place, and ends before another.
    fn ends_before(&self, from: usize, to: usize) -> bool
        ensures { (stretches : List AStretch) → IsStretchIndex stretches self.now → result ≡ list_any (ends_before from to) stretches }
    {
        if from <= self.limit && to <= self.limit {
            match entry(self.mirrored.as_slice(), self.limit - to) {
                None => one_ends_before(self.stretches.as_slice(), from, to),
                Some(opener) => self.limit - from < opener,
            }
        } else {
            one_ends_before(self.stretches.as_slice(), from, to)
        }
    }

    /// Whether one of the stretches holds a place and not another.
    pub fn is_entered(&self, from: usize, to: usize) -> bool
        ensures { (stretches : List AStretch) → IsStretchIndex stretches self.now → result ≡ list_any (is_entered from to) stretches }
    {
        self.opens_behind(from, to) || self.ends_before(from, to)
    }
}
