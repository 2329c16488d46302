//! Copies of conditions.
ghost use Rattle.std.specs.Prelude.{◌≡◌, IfOk};

use crate::node::Cond;
use hyb_base::no_memory::NoMemory;
use std::alloc::Global;
use sym_lmad::copy::copy;

/// A condition of its own, equal to another.
pub fn copy_cond(alloc: Global, cond: &Cond) -> Result<Cond, NoMemory>
    ensures { IfOk result (λ c. c ≡ cond.now) }
{
    Ok(Cond {
        left: copy(alloc, &cond.left)?,
        rel: cond.rel,
        right: copy(alloc, &cond.right)?,
    })
}
