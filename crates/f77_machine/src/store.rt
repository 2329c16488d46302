//! The storage of a run (ANSI X3.9-1978, section 2.13).

use f77_ast::program::Layout;
use hyb_base::cells::Cells;
use hyb_base::no_memory::NoMemory;
use std::alloc::Global;

/// All storage units of a program, each of 64 bits, with a count of the reads by now.
///
/// Every address may be got.
#[derive(Drop)]
pub struct Store {
    values: Vec<i64>,
    reads: u64,
}

impl Store {
    ghost use Rattle.std.specs.Prelude.{◌≡◌, IfOk};
    ghost use Rattle.f77_meaning.specs.Sound.{Fits};
    ghost use Rattle.f77_machine.specs.Store.{values_of, reads_of};

    /// The storage before the first step. Nothing has been read.
    pub fn new(alloc: Global, layout: &Layout) -> Result<Store, NoMemory>
        ensures values { IfOk result (λ store. values_of store ≡ layout.now.first) }
        ensures fits { IfOk result (λ store. Fits layout.now (values_of store)) }
        ensures reads { IfOk result (λ store. reads_of store ≡ 0) }
    {
        Ok(Store {
            values: Vec::from_slice(alloc, layout.first.as_slice())?,
            reads: 0,
        })
    }

    /// The number of reads by now. It stays at 2^64 - 1.
    pub fn reads(&self) -> u64
        ensures { result ≡ reads_of self.now }
    {
        self.reads
    }
}

impl Cells for Store {
    ghost use Rattle.std.specs.Prelude.{true};
    ghost use Rattle.f77_machine.specs.Store.{values_of, reads_of};

    ghost values = { values_of };

    ghost reads = { reads_of };

    ghost may_get = { λ _ _. true };

    fn get(&mut self, address: u32) -> i64 {
        self.reads = self.reads.saturating_add(1);
        self.values[address as usize]
    }

    fn put(&mut self, address: u32, value: i64) {
        self.values[address as usize] = value;
    }
}
