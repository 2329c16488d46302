//! Copies of trees. A copy equals its tree, as each function here ensures.
ghost use Rattle.std.specs.Prelude.{◌≡◌, IfOk};

use f77_ast::expr::{Expr, Part, Ref};
use hyb_base::no_memory::NoMemory;
use sqlite_items::{Boxed, Items};
use std::alloc::Global;

/// A copy of an expression.
#[cycle(copy)]
pub fn copy_expr(alloc: Global, expr: &Expr) -> Result<Expr, NoMemory>
    ensures { IfOk result (λ copy. copy ≡ expr.now) }
{
    match expr {
        Expr::Int(value) => Ok(Expr::Int(*value)),
        Expr::Truth(value) => Ok(Expr::Truth(*value)),
        Expr::Chars(text) => Ok(Expr::Chars(text.copy(alloc)?)),
        Expr::Ref(reference) => Ok(Expr::Ref(copy_ref(alloc, reference)?)),
        Expr::Unary(op, operand) => Ok(Expr::Unary(*op, copy_operand(alloc, operand)?)),
        Expr::Binary(op, left, right) => {
            let left = copy_operand(alloc, left)?;
            let right = copy_operand(alloc, right)?;
            Ok(Expr::Binary(*op, left, right))
        }
        Expr::Paren(inner) => Ok(Expr::Paren(copy_operand(alloc, inner)?)),
    }
}

/// A copy of an operand.
#[cycle(copy)]
fn copy_operand(alloc: Global, operand: &Boxed<Expr>) -> Result<Boxed<Expr>, NoMemory>
    ensures { IfOk result (λ copy. copy ≡ operand.now) }
{
    let copy = copy_expr(alloc, operand.get())?;
    Ok(Boxed::new(alloc, copy)?)
}

/// A copy of a reference.
#[cycle(copy)]
pub fn copy_ref(alloc: Global, reference: &Ref) -> Result<Ref, NoMemory>
    ensures { IfOk result (λ copy. copy ≡ reference.now) }
{
    let args = copy_args(alloc, &reference.args)?;
    let part = copy_part(alloc, &reference.part)?;
    Ok(Ref {
        name: reference.name.copy(),
        args,
        part,
    })
}

/// A copy of what a reference has in parentheses.
#[cycle(copy)]
fn copy_args(alloc: Global, args: &Option<Items<Expr>>) -> Result<Option<Items<Expr>>, NoMemory>
    ensures { IfOk result (λ copy. copy ≡ args.now) }
{
    match args {
        None => Ok(None),
        Some(list) => {
            let trees = list.as_slice();
            let mut copies = Items::new(alloc);
            for tree in trees {
                copies.push(copy_expr(alloc, tree)?)?;
            }
            Ok(Some(copies))
        }
    }
}

/// A copy of a reference's part.
#[cycle(copy)]
fn copy_part(alloc: Global, part: &Option<Boxed<Part>>) -> Result<Option<Boxed<Part>>, NoMemory>
    ensures { IfOk result (λ copy. copy ≡ part.now) }
{
    match part {
        None => Ok(None),
        Some(part) => {
            let copy = copy_bounds(alloc, part.get())?;
            Ok(Some(Boxed::new(alloc, copy)?))
        }
    }
}

/// A copy of a part.
#[cycle(copy)]
fn copy_bounds(alloc: Global, part: &Part) -> Result<Part, NoMemory>
    ensures { IfOk result (λ copy. copy ≡ part.now) }
{
    let low = copy_bound(alloc, &part.low)?;
    let high = copy_bound(alloc, &part.high)?;
    Ok(Part { low, high })
}

/// A copy of a part's bound.
#[cycle(copy)]
fn copy_bound(alloc: Global, bound: &Option<Expr>) -> Result<Option<Expr>, NoMemory>
    ensures { IfOk result (λ copy. copy ≡ bound.now) }
{
    match bound {
        None => Ok(None),
        Some(bound) => Ok(Some(copy_expr(alloc, bound)?)),
    }
}
