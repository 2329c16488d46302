//! How many operands a statement needs: one for each of its literals and names.
ghost use Rattle.std.specs.Prelude.{◌≡◌, IfOk};
ghost use Rattle.f77_operands.specs.Capped.{capped};
ghost use Rattle.f77_structure.specs.Needs.{need_of};

use crate::capped::count;
use f77_ast::stmt::Stmt;
use f77_leaves::leaves::leaves_of;
use hyb_base::no_memory::NoMemory;
use std::alloc::Global;

/// The number of literals, names and references of a statement, or 32,769 where it has more than there may be.
pub fn operand_need(alloc: Global, stmt: &Stmt) -> Result<u32, NoMemory>
    ensures { IfOk result (λ need. need ≡ capped (need_of stmt.now)) }
{
    let leaves = leaves_of(alloc, stmt)?;
    Ok(count(leaves.as_slice()))
}
