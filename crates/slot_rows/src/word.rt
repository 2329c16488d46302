//! The marks of 64 units, as the bits of a word.
ghost use Rattle.std.specs.Prelude.{◌≡◌, ◌≢◌, ◌<◌, ℕ};
ghost use Rattle.std.specs.Int.{bit_at};

/// The number of marks of a word.
pub const BITS: usize = 64;

/// The bit, 0 or 1, at a place.
pub fn mark_at(word: u64, place: u32) -> u64
    requires { place < 64 }
    ensures { result ≡ bit_at word place }
{
    (word >> place) & 1
}

/// The word with a mark at a place, and the others as they were.
pub fn with_mark(word: u64, place: u32) -> u64
    requires { place < 64 }
    ensures here { bit_at result place ≡ 1 }
    ensures others { (i : ℕ) → i ≢ place → bit_at result i ≡ bit_at word i }
    ensures some { 0 < result }
{
    word | (1 << place)
}

/// The word without a mark at a place, and the others as they were.
pub fn without_mark(word: u64, place: u32) -> u64
    requires { place < 64 }
    ensures here { bit_at result place ≡ 0 }
    ensures others { (i : ℕ) → i < 64 → i ≢ place → bit_at result i ≡ bit_at word i }
{
    word & !(1 << place)
}

/// The place of the first mark.
pub fn first_mark(word: u64) -> u32
    requires { 0 < word }
    ensures within { result < 64 }
    ensures marked { bit_at word result ≡ 1 }
{
    word.trailing_zeros()
}
