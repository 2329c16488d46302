//! The number of ends of files that were given.
ghost use Rattle.std.specs.Prelude.{◌≡◌};
ghost use Rattle.hyb_outside.specs.FilesSeen.{ends_after};

/// The number of ends after `given` bytes were given to a buffer of `room`. It stays at its type's end.
pub fn count_end(given: usize, room: usize, ends: u64) -> u64
    ensures { result ≡ ends_after given room ends }
{
    if given == 0 && room > 0 {
        ends.saturating_add(1)
    } else {
        ends
    }
}
