//! Picks that are mixed from a seed, as by SplitMix64 (Steele, Lea and Flood 2014).
ghost use Rattle.std.specs.Prelude.{◌≡◌, ◌<◌};
ghost use Rattle.sched_text.specs.Picks.{mixed_pick, stirred};

/// What the state grows by at each step.
const STEP: u64 = 0x9E37_79B9_7F4A_7C15;

/// The number that SplitMix64 gives after `k` others, for this seed. Sums and products are modulo 2^64.
pub fn mixed(seed: u64, k: u64) -> u64
    ensures { result ≡ mixed_pick seed k }
{
    let state = seed.wrapping_add(k.wrapping_add(1).wrapping_mul(STEP));
    let once = stirred(state, 30).wrapping_mul(0xBF58_476D_1CE4_E5B9);
    let twice = stirred(once, 27).wrapping_mul(0x94D0_49BB_1331_11EB);
    stirred(twice, 31)
}

/// A number, with the bits that are this many places higher laid over it by exclusive or.
fn stirred(z: u64, places: u32) -> u64
    requires { places < 64 }
    ensures { result ≡ stirred places z }
{
    z ^ (z >> places)
}
