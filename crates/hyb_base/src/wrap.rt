//! Arithmetic on INTEGER (ANSI X3.9-1978, section 6.1), which wraps at 64 bits.
ghost use Rattle.std.specs.Prelude.{◌≡◌, ◌<◌, ◌↔◌, pos, ◌<ℤ◌, IsNone};
ghost use Rattle.std.specs.Int.{int_pow};
ghost use Rattle.hyb_base.specs.Wrap.{wrapped, WrapsEach, sum_of, difference_of, product_of, negation_of, quotient_of, power_of};

/// `a + b`, wrapped.
pub fn wrap_add(a: i64, b: i64) -> i64
    ensures { result ≡ sum_of a b }
{
    a.wrapping_add(b)
}

/// `a - b`, wrapped.
pub fn wrap_sub(a: i64, b: i64) -> i64
    ensures { result ≡ difference_of a b }
{
    a.wrapping_sub(b)
}

/// `a * b`, wrapped.
pub fn wrap_mul(a: i64, b: i64) -> i64
    ensures { result ≡ product_of a b }
{
    a.wrapping_mul(b)
}

/// `-a`, wrapped: the least number gives itself.
pub fn wrap_neg(a: i64) -> i64
    ensures { result ≡ negation_of a }
{
    a.wrapping_neg()
}

/// `a / b` without its fraction, wrapped: the least number by -1 gives itself. None exactly where `b` is 0.
pub fn wrap_div(a: i64, b: i64) -> Option<i64>
    ensures value { result ≡ quotient_of a b }
    ensures none { IsNone result ↔ (b ≡ pos 0) }
{
    if b == 0 {
        None
    } else {
        Some(a.wrapping_div(b))
    }
}

/// `a ** k` (ANSI X3.9-1978, section 6.1): the power, wrapped, for `k >= 0`, and 1 where `k` is 0,
/// also of 0; for `k < 0` the quotient without its fraction of 1 by the power to `-k`, which is 1
/// of 1, 1 or -1 by the parity of `k` of -1, and 0 of any other number but 0. None exactly where
/// `a` is 0 and `k < 0`. The time grows with the number of bits of `k`.
pub fn wrap_pow(a: i64, k: i64) -> Option<i64>
    ensures value { result ≡ power_of a k }
    ensures none { IsNone result ↔ (a ≡ pos 0) × (k <ℤ pos 0) }
{
    if k < 0 {
        inverse_power(a, k.unsigned_abs())
    } else {
        Some(power(a, k.unsigned_abs()))
    }
}

/// The power, wrapped, by squares.
fn power(a: i64, exponent: u64) -> i64
    ensures { result ≡ wrapped (int_pow a exponent) }
{
    if exponent == 0 {
        return 1;
    }
    let even = power(wrap_mul(a, a), exponent / 2);
    if exponent % 2 == 0 {
        even
    } else {
        wrap_mul(even, a)
    }
}

/// The quotient without its fraction of 1 by a power.
fn inverse_power(a: i64, exponent: u64) -> Option<i64>
    requires { 0 < exponent }
    ensures { result ≡ quotient_of (pos 1) (int_pow a exponent) }
{
    match a {
        0 => None,
        1 => Some(1),
        -1 if exponent % 2 == 0 => Some(1),
        -1 => Some(-1),
        _ => Some(0),
    }
}

/// What is left of an integer in 64 bits is in their range, and differs from it by a multiple of
/// 2^64: a law, with nothing to do.
pub fn law_of_wrapping()
    ensures { WrapsEach }
{}
