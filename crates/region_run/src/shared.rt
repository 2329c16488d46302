//! Rows where all cells are shared.

use crate::rows::Rows;
use hyb_base::cells::Cells;

/// Rows of iterations that share all cells, and so have no value of their own.
#[derive(Drop)]
pub struct SharedRows {
    /// The number of rows.
    pub count: u32,
    /// The number of cells.
    pub total: u32,
}

impl Rows for SharedRows {
    ghost use Rattle.std.specs.Prelude.{None};
    ghost use Rattle.interleaving.specs.Modes.{Shared};

    ghost modes = { λ rows a. Shared };

    ghost count = { λ rows. rows.count };

    ghost total = { λ rows. rows.total };

    ghost own = { λ rows row a. None };

    fn read<C: Cells>(&self, _row: u32, address: u32, cells: &mut C) -> i64 {
        cells.get(address)
    }

    fn write<C: Cells>(&mut self, _row: u32, address: u32, value: i64, cells: &mut C) {
        cells.put(address, value);
    }

    fn commit<C: Cells>(&mut self, _row: u32, _cells: &mut C) {}
}
