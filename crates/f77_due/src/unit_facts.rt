//! What a unit says of its names.
ghost use Rattle.std.specs.Prelude.{◌≡◌, IfOk};
ghost use Rattle.f77_uses.specs.UseTables.{uses_in};
ghost use Rattle.f77_uses.specs.Uses.{uses_of};
ghost use Rattle.f77_due.specs.Starts.{facts_in};
ghost use Rattle.f77_due.specs.Unit.{facts_of_unit};

use crate::starts::{Starts, starts_of};
use f77_ast::program::Listed;
use f77_constants::constants::values_of;
use f77_constants::value::Values;
use f77_uses::tables::Tables;
use f77_uses::unit_tables::{declarations, use_table};
use f77_uses::use_table::UseTable;
use hyb_base::no_memory::NoMemory;
use std::alloc::Global;

/// What a unit says of its names. Each name is found in constant time.
#[derive(Drop)]
pub struct UnitTables {
    /// What it declares.
    pub tables: Tables,
    /// What it uses its names as.
    pub uses: UseTable,
    /// The values of its constants.
    pub values: Values,
    /// The letters with which an entity begins that is no dummy argument, and has its type by its first letter.
    pub starts: Starts,
}

/// What a unit says of its names, in whatever order.
pub fn unit_tables(alloc: Global, unit: &[Listed]) -> Result<UnitTables, NoMemory>
    ensures facts { IfOk result (λ tables. facts_in tables ≡ facts_of_unit unit.now) }
    ensures uses { IfOk result (λ tables. uses_in tables.uses ≡ uses_of unit.now) }
{
    let declared = declarations(alloc, unit)?;
    let tables = declared.tables;
    let uses = use_table(alloc, unit, &tables)?;
    let values = values_of(alloc, unit, &tables)?;
    let starts = starts_of(alloc, unit, &tables, &uses)?;
    Ok(UnitTables {
        tables,
        uses,
        values,
        starts,
    })
}
