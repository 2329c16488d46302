//! What the iterations did with one address.
ghost use Rattle.std.specs.Prelude.{◌≡◌};
ghost use Rattle.loop_trace.specs.Cells.{after_read, after_write, before, found_by_read, found_by_write, untouched};

use dependence::modes::Pair;

/// Which iterations, counted from 1, used an address.
#[derive(Clone, Copy, Debug)]
pub(crate) struct Cell {
    /// The first iteration that writes it.
    pub(crate) first_write: Option<u64>,
    /// The first iteration whose first access to it is a read.
    pub(crate) first_exposed: Option<u64>,
    /// The last iteration that accesses it, and 0 where none does.
    pub(crate) last: u64,
}

/// An iteration, where it is before another.
fn earlier_than(first: Option<u64>, iteration: u64) -> Option<u64>
    ensures { result ≡ before iteration first }
{
    match first {
        None => None,
        Some(earlier) => {
            if earlier < iteration {
                Some(earlier)
            } else {
                None
            }
        }
    }
}

impl Cell {
    /// An address that no iteration accesses.
    pub(crate) fn untouched() -> Cell
        ensures { result ≡ untouched }
    {
        Cell {
            first_write: None,
            first_exposed: None,
            last: 0,
        }
    }

    /// The address after a read by an iteration.
    pub(crate) fn after_read(self, iteration: u64) -> Cell
        ensures { result ≡ after_read iteration self }
    {
        if self.last == iteration {
            return self;
        }
        Cell {
            first_write: self.first_write,
            first_exposed: Some(self.first_exposed.unwrap_or(iteration)),
            last: iteration,
        }
    }

    /// The address after a write by an iteration.
    pub(crate) fn after_write(self, iteration: u64) -> Cell
        ensures { result ≡ after_write iteration self }
    {
        Cell {
            first_write: Some(self.first_write.unwrap_or(iteration)),
            first_exposed: self.first_exposed,
            last: iteration,
        }
    }

    /// The flow pair that a read by an iteration makes: where it is the first access, and an earlier iteration writes.
    pub(crate) fn found_by_read(self, address: u32, iteration: u64) -> Option<Pair>
        ensures { result ≡ found_by_read address iteration self }
    {
        if self.last == iteration {
            return None;
        }
        match self.first_write {
            None => None,
            Some(earlier) => Some(Pair {
                address,
                earlier,
                later: iteration,
            }),
        }
    }

    /// The conflict that a write by an iteration makes: where an earlier one writes or exposes a read.
    pub(crate) fn found_by_write(self, address: u32, iteration: u64) -> Option<Pair>
        ensures { result ≡ found_by_write address iteration self }
    {
        match earlier_than(self.first_write, iteration) {
            Some(earlier) => Some(Pair {
                address,
                earlier,
                later: iteration,
            }),
            None => match earlier_than(self.first_exposed, iteration) {
                Some(earlier) => Some(Pair {
                    address,
                    earlier,
                    later: iteration,
                }),
                None => None,
            },
        }
    }
}
