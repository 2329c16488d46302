//! For each place of a unit, where the last of the stretches that hold it opens. Stretches need not nest.
ghost use Rattle.std.specs.Prelude.{◌≡◌, ◌==◌, ◌<◌, ◌≤◌, ℕ, max, length, vec_len, IfOk, slice_index, if◌then◌else◌};
ghost use Rattle.f77_shape.specs.Openers.{AreOpeners, AreFarthest, AreFound, opener_before};

use f77_structure::stretches::Stretch;
use hyb_base::no_memory::NoMemory;
use std::alloc::Global;

/// Notes how far a stretch runs, where it opens at a place of the table.
fn note(farthest: &mut Vec<usize>, stretch: &Stretch)
    ensures count { vec_len farthest.new ≡ vec_len farthest.old }
    ensures at { (opens : ℕ) → opens < vec_len farthest.old → slice_index farthest.new.items opens ≡ (if stretch.now.opens == opens then max (slice_index farthest.old.items opens) stretch.now.last else slice_index farthest.old.items opens) }
{
    if stretch.opens < farthest.len() && farthest[stretch.opens] < stretch.last {
        farthest[stretch.opens] = stretch.last;
    }
}

/// For each of `count` places the farthest one to which a stretch runs that opens there; 0 without one.
fn farthest_of(alloc: Global, count: usize, stretches: &[Stretch]) -> Result<Vec<usize>, NoMemory>
    ensures { IfOk result (λ table. AreFarthest stretches.now count table.items) }
{
    let mut farthest = vec![in alloc; 0; count]?;
    for stretch in stretches {
        note(&mut farthest, stretch);
    }
    Ok(farthest)
}

/// One more than the last place before this one at which a stretch opens that runs to it; 0 without one. The search goes
/// from an opener to the next one out. What it passes over ends before this place, and no later search meets it again: so
/// the searches of all places together take time in proportion to the number of places.
fn opener_of(farthest: &[usize], openers: &[usize], place: usize) -> usize
    requires within { place < length farthest.now }
    requires known { place ≡ length openers.now }
    requires found { AreFound farthest.now openers.now }
    ensures { result ≡ opener_before (slice_index farthest.now) place place }
{
    let mut end = place;
    while end > 0 && farthest[end - 1] < place {
        end = openers[end - 1];
    }
    end
}

/// The openers of the places of a table, where the stretches up to a place are known.
fn sweep(alloc: Global, farthest: &[usize]) -> Result<Vec<usize>, NoMemory>
    ensures count { IfOk result (λ openers. length openers.items ≡ length farthest.now) }
    ensures found { IfOk result (λ openers. AreFound farthest.now openers.items) }
{
    let mut openers: Vec<usize> = Vec::new(alloc);
    for place in 0..farthest.len() {
        let opener = opener_of(farthest, openers.as_slice(), place);
        openers.push(opener)?;
    }
    Ok(openers)
}

/// For each of `count` places one more than the last place at which a stretch opens that holds it; 0 without one.
pub fn openers_of(
    alloc: Global,
    count: usize,
    stretches: &[Stretch],
) -> Result<Vec<usize>, NoMemory>
    ensures found { IfOk result (λ openers. AreOpeners stretches.now openers.items) }
    ensures count { IfOk result (λ openers. length openers.items ≡ count) }
{
    let farthest = farthest_of(alloc, count, stretches)?;
    let openers = sweep(alloc, farthest.as_slice())?;
    Ok(openers)
}
