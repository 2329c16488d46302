//! The iteration count of a DO-loop (ANSI X3.9-1978, section 11.10.3), without wrapping.
ghost use Rattle.std.specs.Prelude.{◌≡◌, ◌≢◌, ◌<◌, ◌≤◌, ◌^◌, pos, ◌+ℤ◌, ◌-ℤ◌, ◌*ℤ◌, neg_ℤ, ◌≤ℤ◌, int_div, Some, None, if◌then◌else◌};
ghost use Rattle.f77_meaning.specs.Do.{at_least_zero, count_of, has_64_bits, is_in_range, value_after};
ghost use Rattle.f77_machine.specs.Begun.{as_parameters};

/// The initial, terminal and incrementation parameters m1, m2 and m3 (ANSI X3.9-1978, section 11.10.3).
#[derive(Clone, Copy, Debug, PartialEq, Eq)]
pub struct Parameters {
    /// The initial parameter.
    pub first: i64,
    /// The terminal parameter.
    pub last: i64,
    /// The incrementation parameter.
    pub increment: i64,
}

/// The iteration count, MAX(INT((m2 - m1 + m3) / m3), 0). None where it, or the variable's value at the end of the
/// loop, isn't from -2^63 to 2^63 - 1.
pub fn iteration_count(parameters: Parameters) -> Option<u64>
    requires { parameters.increment ≢ pos 0 }
    ensures { result ≡ (if is_in_range (as_parameters parameters) then Some (count_of (as_parameters parameters)) else None) }
{
    let count = count_that_fits(quotient(parameters.first, parameters.last, parameters.increment))?;
    if end_fits(parameters.first, parameters.increment, count) {
        Some(count)
    } else {
        None
    }
}

/// `(m2 - m1 + m3) / m3` without its fraction.
fn quotient(first: i64, last: i64, increment: i64) -> i128
    requires { increment ≢ pos 0 }
    ensures { result ≡ int_div (last -ℤ first +ℤ increment) increment }
{
    divided(distance(first, last, increment), increment)
}

/// `m2 - m1 + m3`.
fn distance(first: i64, last: i64, increment: i64) -> i128
    ensures value { result ≡ last -ℤ first +ℤ increment }
    ensures above { neg_ℤ (pos (2 ^ 65)) ≤ℤ result }
    ensures below { result ≤ℤ pos (2 ^ 65) }
{
    i128::from(last) - i128::from(first) + i128::from(increment)
}

/// The quotient without its fraction of a distance.
fn divided(distance: i128, increment: i64) -> i128
    requires divisor { increment ≢ pos 0 }
    requires above { neg_ℤ (pos (2 ^ 65)) ≤ℤ distance }
    requires below { distance ≤ℤ pos (2 ^ 65) }
    ensures { result ≡ int_div distance increment }
{
    distance / i128::from(increment)
}

/// A number from 0 on, and 0 for a lesser one. None where it is 2^63 or more.
fn count_that_fits(number: i128) -> Option<u64>
    ensures { result ≡ (if has_64_bits (pos (at_least_zero number)) then Some (at_least_zero number) else None) }
{
    if number < 0 {
        Some(0)
    } else if number < 1 << 63 {
        Some(number as u64)
    } else {
        None
    }
}

/// Whether the value of the variable after `count` iterations has 64 bits.
fn end_fits(first: i64, increment: i64, count: u64) -> bool
    requires { count < 2 ^ 63 }
    ensures { result ≡ has_64_bits (value_after first increment count) }
{
    has_64_bits(i128::from(first) + travelled(increment, count))
}

/// How far the variable goes in `count` iterations.
fn travelled(increment: i64, count: u64) -> i128
    requires { count < 2 ^ 63 }
    ensures value { result ≡ pos count *ℤ increment }
    ensures above { neg_ℤ (pos (2 ^ 126)) ≤ℤ result }
    ensures below { result ≤ℤ pos (2 ^ 126) }
{
    i128::from(count) * i128::from(increment)
}

/// Whether a number is one from -2^63 to 2^63 - 1.
fn has_64_bits(number: i128) -> bool
    ensures { result ≡ has_64_bits number }
{
    -(1 << 63) <= number && number < 1 << 63
}
