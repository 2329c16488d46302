//! The limit on the operands of a program; it is this project's own.
ghost use Rattle.f77_ast.specs.Limits.{most_operands};
ghost use Rattle.std.specs.Prelude.{◌≡◌, ◌≤◌, ◌+◌, Some, nat_lt, IfOk, IsErrOf};
ghost use Rattle.f77_ast.specs.declared.refusal.Refusal.{Refusal};
ghost use Rattle.f77_operands.specs.Capped.{IsWithin};
ghost use Rattle.f77_operands.specs.Limit.{too_many, unit_refusal, operand_refusal};

use crate::capped::plus;
use crate::needs::operand_need;
use f77_ast::limits::MOST_OPERANDS;
use f77_ast::program::{Listed, Unit};
use f77_ast::refusal::{FrontError, Refusal};
use f77_ast::rule::Rule;
use hyb_base::no_memory::NoMemory;
use std::alloc::Global;

/// Whether the limit is passed at a statement of this need, where the needs of the units before it add up to `others`.
fn is_past(others: u32, need: u32) -> bool
    ensures { result ≡ nat_lt most_operands (others + need) }
{
    plus(others, need) > MOST_OPERANDS
}

/// The refusal of a statement at which the limit is passed.
fn too_many(listed: &Listed) -> Refusal
    ensures { result ≡ too_many listed.now }
{
    Refusal::new(listed.card.line, Rule::SizeLimit)
}

/// The need of a unit, or the refusal of its first statement at which the limit is passed, where the needs of the units
/// before it add up to `others`.
fn unit_need(alloc: Global, others: u32, listing: &[Listed]) -> Result<u32, FrontError>
    requires { others ≤ most_operands }
    ensures within { IfOk result (λ need. IsWithin others listing.now need) }
    ensures past { (refusal : Refusal) → IsErrOf result (FrontError.Refused refusal) → unit_refusal others listing.now ≡ Some refusal }
{
    let mut greatest = 0;
    for listed in listing {
        let need = operand_need(alloc, &listed.stmt)?;
        if is_past(others, need) {
            return Err(FrontError::Refused(too_many(listed)));
        }
        greatest = greatest.max(need);
    }
    Ok(greatest)
}

/// SizeLimit: the first statement of a file at which the greatest needs of its units by now add up to more than there may be.
pub fn too_many_operands(alloc: Global, units: &[Unit]) -> Result<Option<Refusal>, NoMemory>
    ensures value { IfOk result (λ first. first ≡ operand_refusal units.now) }
{
    let mut others = 0;
    for unit in units {
        match unit_need(alloc, others, unit.listing.as_slice()) {
            Ok(need) => others += need,
            Err(FrontError::Refused(refusal)) => return Ok(Some(refusal)),
            Err(FrontError::NoMemory) => return Err(NoMemory),
        }
    }
    Ok(None)
}
