//! The statements of a unit, and where control goes on among them.
ghost use Rattle.std.specs.Prelude.{◌≡◌, ◌+◌, ◌^◌, ◌<◌, [], slice_get};
ghost use Rattle.std.specs.Option.{option_map_or};
ghost use Rattle.f77_structure.specs.Units.{listing_of, next_place};

use f77_ast::program::{Listed, Unit};
use f77_structure::units::next_place;

/// The statements of a unit; none where there is no such unit.
#[tactic(auto, using(crate::proofs::Mains::listing_found))]
pub fn listing_of(units: &[Unit], unit: u32) -> &[Listed]
    ensures { result.now ≡ listing_of units.now unit }
{
    entered(units, unit)
}

/// The same, by the unit that is found.
fn entered(units: &[Unit], unit: u32) -> &[Listed]
    ensures { result.now ≡ option_map_or (λ entered. entered.listing) (slice_get units.now unit) [] }
{
    match units.get(unit as usize) {
        None => &[],
        Some(entered) => entered.listing.as_slice(),
    }
}

/// The place at which control goes on after the statement at a place, which may be past the last one.
#[tactic(auto, using(crate::proofs::Mains::next_past))]
pub fn next_in(listing: &[Listed], at: usize) -> usize
    requires { at + 1 < 2 ^ 64 }
    ensures { result ≡ next_place listing.now at }
{
    if at < listing.len() {
        next_place(listing, at)
    } else {
        at + 1
    }
}
