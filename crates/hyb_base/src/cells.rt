//! The storage that a program runs over.
ghost use Rattle.std.specs.Prelude.{◌≡◌, ℕ, ℤ, ◌<◌, List, Bool, IsTrue, length, slice_get, slice_set};
ghost use Rattle.hyb_base.specs.Count.{next_count};

/// Storage units of 64 bits by their address, counted from 0.
pub trait Cells {
    // The values held: one for each address.
    ghost values: { Self → List ℤ };

    // The number of reads so far, which stands still at 2 ^ 64 - 1.
    ghost reads: { Self → ℕ };

    // Whether an address may be got.
    ghost may_get: { Self → ℕ → Bool };

    /// The value at an address. It counts one read, and changes no value.
    fn get(&mut self, address: u32) -> i64
        requires held { address < length (values self.old) }
        requires allowed { IsTrue (may_get self.old address) }
        ensures value { slice_get (values self.old) address ≡ Some result }
        ensures same_values { values self.new ≡ values self.old }
        ensures counted { reads self.new ≡ next_count (reads self.old) }
        ensures same_test { may_get self.new ≡ may_get self.old };

    /// Replaces the value at an address, and no other. It counts no read.
    fn put(&mut self, address: u32, value: i64)
        requires { address < length (values self.old) }
        ensures values { values self.new ≡ slice_set (values self.old) address value }
        ensures same_reads { reads self.new ≡ reads self.old }
        ensures same_test { may_get self.new ≡ may_get self.old };
}
