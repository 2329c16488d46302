//! Numbers that leave room for sums in 64 bits.
ghost use Rattle.std.specs.Prelude.{SomeIff};
ghost use Rattle.hyb_base.specs.Near.{IsNear};

/// The number, where it is strictly between -2^62 and 2^62. None exactly where it isn't between these.
pub fn near(v: i128) -> Option<i64>
    ensures { SomeIff result (IsNear v) v }
{
    if -(1 << 62) < v && v < 1 << 62 {
        Some(v as i64)
    } else {
        None
    }
}
