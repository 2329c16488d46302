//! The ranges of the DO statements of a unit.
ghost use Rattle.std.specs.Prelude.{◌≡◌, ◌+◌, ◌^◌, ◌<◌, length, reverse, IfOk};
ghost use Rattle.f77_loops.specs.Ranges.{ranges_in};

use crate::following::Following;
use f77_ast::program::Listing;
use hyb_base::no_memory::NoMemory;
use std::alloc::Global;

/// The range of a DO-loop.
#[derive(Clone, Copy)]
pub struct Range {
    /// Its terminal statement, counted among the statements of the file from 1.
    pub last: u32,
    /// Whether no statement in it keeps the loop from being closed.
    pub closed: bool,
}

/// The ranges of the DO statements of a unit, the last one's first. The unit's first statement has this number.
pub fn ranges_of(alloc: Global, number: u32, listing: &Listing) -> Result<Vec<Range>, NoMemory>
    requires { number + length listing.now < 2 ^ 32 }
    ensures { IfOk result (λ ranges. ranges.items ≡ reverse (ranges_in number listing.now)) }
{
    let statements = listing.as_slice();
    let mut at = statements.len();
    let mut following = Following::new(alloc, number + at as u32);
    while at > 0 {
        at -= 1;
        following.go_back(number + at as u32, &statements[at])?;
    }
    Ok(following.ranges)
}
