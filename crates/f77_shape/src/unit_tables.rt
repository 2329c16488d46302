//! The tables of a unit: its labels, its DO ranges and its IF blocks.
ghost use Rattle.std.specs.Prelude.{IfOk};
ghost use Rattle.f77_shape.specs.UnitTables.{AreUnitTables};

use crate::stretch_index::{StretchIndex, index_stretches};
use f77_ast::program::Listed;
use f77_structure::blocks::blocks_of;
use f77_structure::stretches::ranges_of;
use f77_structure::targets::{Targets, targets_of};
use hyb_base::no_memory::NoMemory;
use std::alloc::Global;

/// The tables of a unit.
#[derive(Drop)]
pub struct UnitTables {
    /// What its labels mean.
    pub targets: Targets<usize>,
    /// Its DO ranges.
    pub ranges: StretchIndex,
    /// Its IF blocks.
    pub blocks: StretchIndex,
}

/// The tables of a unit.
pub fn unit_tables(alloc: Global, unit: &[Listed]) -> Result<UnitTables, NoMemory>
    ensures { IfOk result (λ places. AreUnitTables unit.now places) }
{
    let targets = targets_of(alloc, unit)?;
    let ranges = ranges_of(alloc, unit, &targets)?;
    let blocks = blocks_of(alloc, unit)?;
    let ranges = index_stretches(alloc, unit.len(), ranges)?;
    let blocks = index_stretches(alloc, unit.len(), blocks)?;
    Ok(UnitTables {
        targets,
        ranges,
        blocks,
    })
}
