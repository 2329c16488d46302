//! Cells in memory.
ghost use Rattle.std.specs.Prelude.{◌≡◌, length, IfOk};
ghost use Rattle.turn_rows.specs.Memory.{values_of};

use crate::walker::CELLS;
use hyb_base::cells::Cells;
use hyb_base::no_memory::NoMemory;
use std::alloc::Global;

/// Cells, each of 64 bits, with a count of the reads by now. Every address may be got.
#[derive(Drop)]
pub struct Memory {
    values: Vec<i64>,
    reads: u64,
}

impl Memory {
    /// Cells of 0, one for each address of a byte. Nothing has been read.
    pub fn new(alloc: Global) -> Result<Memory, NoMemory>
        ensures { IfOk result (λ memory. length (values_of memory) ≡ 256) }
    {
        Ok(Memory {
            values: Vec::from_elem(alloc, 0i64, CELLS as usize)?,
            reads: 0,
        })
    }

    /// The cells.
    pub fn as_slice(&self) -> &[i64]
        ensures { result.now ≡ values_of self.now }
    {
        self.values.as_slice()
    }
}

impl Cells for Memory {
    ghost use Rattle.std.specs.Prelude.{true};
    ghost use Rattle.turn_rows.specs.Memory.{reads_of};

    ghost values = { values_of };

    ghost reads = { reads_of };

    ghost may_get = { λ _ _. true };

    fn get(&mut self, address: u32) -> i64 {
        self.reads = self.reads.saturating_add(1);
        self.values[address as usize]
    }

    fn put(&mut self, address: u32, value: i64) {
        self.values[address as usize] = value;
    }
}
