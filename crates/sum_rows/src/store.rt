//! The cells of a row.

use hyb_base::cells::Cells;
use hyb_base::nums::Nums;

/// Cells over a list, each of which may be got, and the number of reads.
#[derive(Drop)]
pub struct Store {
    /// The values by address.
    pub nums: Nums,
    /// The number of reads, which stays at 2^64 - 1.
    pub reads: u64,
}

impl Cells for Store {
    ghost use Rattle.std.specs.Prelude.{true};

    ghost values = { λ s. s.nums };

    ghost reads = { λ s. s.reads };

    ghost may_get = { λ _ _. true };

    fn get(&mut self, address: u32) -> i64 {
        self.reads = self.reads.saturating_add(1);
        self.nums.as_slice()[address as usize]
    }

    fn put(&mut self, address: u32, value: i64) {
        self.nums.set(address as usize, value);
    }
}
