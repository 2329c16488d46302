//! Sums and products of 128 bits that count as 2^64 from there on.
ghost use Rattle.std.specs.Prelude.{◌≡◌, ◌+◌, ◌*◌, ◌≤◌, ◌^◌};
ghost use Rattle.f77_sizes.specs.Sizes.{capped};

/// From here on all numbers count as one.
const MOST: u128 = 1 << 64;

/// A product, at most 2^64.
pub fn capped_product(left: u128, right: u128) -> u128
    ensures { result ≡ capped (left * right) }
{
    left.saturating_mul(right).min(MOST)
}

/// A sum, at most 2^64.
pub fn capped_sum(left: u128, right: u128) -> u128
    ensures { result ≡ capped (left + right) }
{
    left.saturating_add(right).min(MOST)
}
