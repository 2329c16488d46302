//! Where the units of some regions are in a row.
ghost use Rattle.std.specs.Prelude.{◌≡◌, ◌<◌, ◌+◌, ◌^◌, ◌++◌, ◌∷◌, [], true, ℕ, All, IfOk, OnOk};
ghost use Rattle.std.specs.List.{IsDistinct};
ghost use Rattle.slot_rows.specs.Spans.{AreAlone, AreApart, ArePlaced, addresses_of, befores_of, has_address, has_span, overlap, run, spans_of};

use f77_ast::program::Region;
use hyb_base::no_memory::NoMemory;
use std::alloc::Global;

/// A region that has units.
#[derive(Clone, Copy)]
pub struct Span {
    /// Its least address.
    pub start: u32,
    /// The number of its units.
    pub len: u32,
    /// Its place among the regions that the table was made of.
    pub place: usize,
}

/// Where the units of some regions are in a row: one after another, by their addresses.
#[derive(Drop)]
pub struct Table {
    /// The regions that the table was made of.
    regions: Vec<Region>,
    /// Those that have units, by their starts.
    spans: Vec<Span>,
    /// The number of units before each of them.
    befores: Vec<usize>,
    /// The address of each unit.
    addresses: Vec<u32>,
    ghost alone: { AreAlone regions.items },
    ghost apart: { AreApart spans.items },
    ghost placed: { ArePlaced regions.items spans.items },
    ghost covered: { (a : ℕ) → has_address regions.items a ≡ true → has_span spans.items a ≡ true },
    ghost befores_are: { befores.items ≡ befores_of 0 spans.items },
    ghost addresses_are: { addresses.items ≡ addresses_of spans.items },
}

impl Table {
    ghost use Rattle.std.specs.Prelude.{◌≤◌, length, slice_index_or, vec_len};
    ghost use Rattle.slot_rows.specs.declared.table.Span.{Span};
    ghost use Rattle.slot_rows.specs.Spans.{place_in, place_with};
    ghost use Rattle.slot_rows.specs.Table.{addresses_in};

    /// The table of some regions, of which no two have an address in common.
    pub fn new(alloc: Global, regions: Vec<Region>) -> Result<Table, NoMemory>
        requires within { All (λ r. r.start + r.len < 2 ^ 32) regions.items }
        requires apart { IsDistinct overlap regions.items }
        ensures { IfOk result (λ table. table.regions.items ≡ regions.items) }
    {
        let spans = sorted_spans(alloc, regions.as_slice())?;
        let (befores, addresses) = laid_out(alloc, spans.as_slice())?;
        Ok(Table {
            regions,
            spans,
            befores,
            addresses,
        })
    }

    /// The number of units.
    pub fn units(&self) -> usize
        ensures { result ≡ length (addresses_in self.now) }
    {
        self.addresses.len()
    }

    /// The unit of an address, by binary search.
    pub fn unit_of(&self, address: u32) -> usize
        requires { has_address self.now.regions.items address ≡ true }
        ensures unit { result ≡ place_in (addresses_in self.now) address }
        ensures within { result < length (addresses_in self.now) }
    {
        let place = self.span_at(address);
        self.befores[place] + (address - self.spans[place].start) as usize
    }

    /// The address of a unit.
    pub fn address_of(&self, unit: usize) -> u32
        requires { unit < length (addresses_in self.now) }
        ensures unit { place_in (addresses_in self.now) result ≡ unit }
        ensures address { has_address self.now.regions.items result ≡ true }
    {
        self.addresses[unit]
    }

    /// The place of the region that has an address, by binary search.
    pub fn place_of(&self, address: u32) -> usize
        requires { has_address self.now.regions.items address ≡ true }
        ensures place { result ≡ place_with self.now.regions.items address }
        ensures within { result < vec_len self.now.regions }
    {
        self.spans[self.span_at(address)].place
    }

    /// The place among the spans of the one that has an address.
    fn span_at(&self, address: u32) -> usize
        requires { has_address self.now.regions.items address ≡ true }
        ensures within { result < vec_len self.now.spans }
        ensures low { (d : Span) → (slice_index_or self.now.spans.items result d).start ≤ address }
        ensures high { (d : Span) → address < (slice_index_or self.now.spans.items result d).start + (slice_index_or self.now.spans.items result d).len }
    {
        let after = self.spans.partition_point(|span| span.start <= address);
        after - 1
    }
}

/// The regions that have units, by their starts.
fn sorted_spans(alloc: Global, regions: &[Region]) -> Result<Vec<Span>, NoMemory>
    requires within { All (λ r. r.start + r.len < 2 ^ 32) regions.now }
    requires apart { IsDistinct overlap regions.now }
    ensures apart { IfOk result (λ spans. AreApart spans.items) }
    ensures placed { IfOk result (λ spans. ArePlaced regions.now spans.items) }
    ensures covered { IfOk result (λ spans. (a : ℕ) → has_address regions.now a ≡ true → has_span spans.items a ≡ true) }
    ensures within { IfOk result (λ spans. All (λ s. s.start + s.len < 2 ^ 32) spans.items) }
{
    let mut spans = filled_spans(alloc, regions)?;
    spans.sort_unstable_by_key(|span| span.start);
    Ok(spans)
}

/// The regions that have units, in their order.
fn filled_spans(alloc: Global, regions: &[Region]) -> Result<Vec<Span>, NoMemory>
    ensures { IfOk result (λ spans. spans.items ≡ spans_of 0 regions.now) }
{
    let mut spans = Vec::new(alloc);
    for (place, region) in regions.iter().enumerate() {
        push_filled(&mut spans, region, place)?;
    }
    Ok(spans)
}

/// Adds a region last, where it has units. A function of its own, since the join after `if` loses facts.
fn push_filled(spans: &mut Vec<Span>, region: &Region, place: usize) -> Result<(), NoMemory>
    ensures { OnOk result (spans.new.items ≡ spans.old.items ++ spans_of place (region.now ∷ [])) }
{
    if region.len != 0 {
        spans.push(Span {
            start: region.start,
            len: region.len,
            place,
        })?;
    }
    Ok(())
}

/// The number of units before each region, and the address of each unit.
fn laid_out(alloc: Global, spans: &[Span]) -> Result<(Vec<usize>, Vec<u32>), NoMemory>
    requires { All (λ s. s.start + s.len < 2 ^ 32) spans.now }
    ensures befores { IfOk result (λ p. p.0.items ≡ befores_of 0 spans.now) }
    ensures addresses { IfOk result (λ p. p.1.items ≡ addresses_of spans.now) }
{
    let mut befores = Vec::with_capacity(alloc, spans.len())?;
    let mut addresses = Vec::new(alloc);
    for span in spans {
        befores.push(addresses.len())?;
        push_run(&mut addresses, span.start, span.len)?;
    }
    Ok((befores, addresses))
}

/// Adds some numbers from a first one on.
fn push_run(into: &mut Vec<u32>, first: u32, count: u32) -> Result<(), NoMemory>
    requires { first + count < 2 ^ 32 }
    ensures { OnOk result (into.new.items ≡ into.old.items ++ run first count) }
{
    for offset in 0..count {
        into.push(first + offset)?;
    }
    Ok(())
}
