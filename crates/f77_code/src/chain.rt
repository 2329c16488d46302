//! The code of the right side of an accumulation to `v`: a chain of operators that begins with `v`, or `e + v` or `e * v`.
ghost use Rattle.std.specs.Prelude.{◌≡◌, ◌≤◌, ◌^◌, ◌++◌, suc, IfSome, IfOk, OnOk, length};
ghost use Rattle.std.specs.Option.{is_some, option_map};
ghost use Rattle.f77_meaning.specs.Assign.{stands_in_sum, stands_in_product, exchanged, is_v, operation_of, operators_at_left};
ghost use Rattle.f77_code.specs.Accumulations.{accumulation_code, first_code, chain_code, last_code, joining_code};
ghost use Rattle.f77_code.specs.Chains.{as_operation, stands_in, or_empty};
ghost use Rattle.f77_code.specs.Exprs.{expr_code};

use crate::exprs::add_expr;
use f77_ast::code::{Instr, Instrs};
use f77_ast::expr::{Expr, Op, Ref};
use f77_ast::program::Layout;
use f77_trees::same::same_ref;
use hyb_base::no_memory::NoMemory;
use hyb_base::ops::RedOp;

/// The chains that an accumulation may be.
#[derive(Clone, Copy, Debug)]
enum Chain {
    /// A chain of `+` and `-`.
    Sum,
    /// A chain of `*`.
    Product,
}

/// Whether an operator is one of a chain.
fn stands_in(chain: Chain, op: Op) -> bool
    ensures { result ≡ stands_in chain op }
{
    match chain {
        Chain::Sum => stands_in_sum(op),
        Chain::Product => stands_in_product(op),
    }
}

/// Whether an operator is `+` or `-`.
fn stands_in_sum(op: Op) -> bool
    ensures { result ≡ stands_in_sum op }
{
    match op {
        Op::Plus => false,
        Op::Neg => false,
        Op::Not => false,
        Op::Add => true,
        Op::Sub => true,
        Op::Mul => false,
        Op::Div => false,
        Op::Pow => false,
        Op::Cat => false,
        Op::Rel(_) => false,
        Op::And => false,
        Op::Or => false,
        Op::Eqv => false,
        Op::Neqv => false,
    }
}

/// Whether an operator is `*`.
fn stands_in_product(op: Op) -> bool
    ensures { result ≡ stands_in_product op }
{
    match op {
        Op::Plus => false,
        Op::Neg => false,
        Op::Not => false,
        Op::Add => false,
        Op::Sub => false,
        Op::Mul => true,
        Op::Div => false,
        Op::Pow => false,
        Op::Cat => false,
        Op::Rel(_) => false,
        Op::And => false,
        Op::Or => false,
        Op::Eqv => false,
        Op::Neqv => false,
    }
}

/// The operator of an accumulation `e op v`.
fn exchanged(op: Op) -> Option<RedOp>
    ensures { result ≡ exchanged op }
{
    match op {
        Op::Plus => None,
        Op::Neg => None,
        Op::Not => None,
        Op::Add => Some(RedOp::Add),
        Op::Sub => None,
        Op::Mul => Some(RedOp::Mul),
        Op::Div => None,
        Op::Pow => None,
        Op::Cat => None,
        Op::Rel(_) => None,
        Op::And => None,
        Op::Or => None,
        Op::Eqv => None,
        Op::Neqv => None,
    }
}

/// Whether an expression is a reference, spelled as this one.
fn is_v(v: &Ref, expr: &Expr) -> bool
    ensures { result ≡ is_v v.now expr.now }
{
    match expr {
        Expr::Int(_) => false,
        Expr::Truth(_) => false,
        Expr::Chars(_) => false,
        Expr::Ref(reference) => same_ref(v, reference),
        Expr::Unary(_, _) => false,
        Expr::Binary(_, _, _) => false,
        Expr::Paren(_) => false,
    }
}

/// An operator and its two operands.
#[derive(Clone, Copy)]
struct Operation<'t> {
    op: Op,
    left: &'t Expr,
    right: &'t Expr,
}

/// The outermost operator of an expression, where it has two operands.
fn outermost(expr: &Expr) -> Option<Operation<'_>>
    ensures value { option_map as_operation result ≡ operation_of expr.now }
    ensures operators { IfSome result (λ o. operators_at_left expr.now ≡ suc (operators_at_left o.left.now)) }
{
    match expr {
        Expr::Int(_) => None,
        Expr::Truth(_) => None,
        Expr::Chars(_) => None,
        Expr::Ref(_) => None,
        Expr::Unary(_, _) => None,
        Expr::Binary(op, left, right) => Some(Operation {
            op: *op,
            left: left.get(),
            right: right.get(),
        }),
        Expr::Paren(_) => None,
    }
}

/// Adds the code of the right side of an accumulation, and its write, and says whether the assignment is one. The first form that fits
/// counts.
pub fn add_accumulation(
    layout: &Layout,
    unit: u32,
    v: &Ref,
    expr: &Expr,
    code: &mut Instrs,
) -> Result<bool, NoMemory>
    requires { length layout.now.entities ≤ 2 ^ 32 }
    ensures found { IfOk result (λ found. found ≡ is_some (joining_code layout.now unit v.now expr.now)) }
    ensures code { OnOk result (code.new ≡ code.old ++ accumulation_code (joining_code layout.now unit v.now expr.now)) }
{
    if add_chain(layout, unit, v, Chain::Sum, expr, code)? {
        code.push(Instr::Accumulate(RedOp::Add))?;
        return Ok(true);
    }
    if add_chain(layout, unit, v, Chain::Product, expr, code)? {
        code.push(Instr::Accumulate(RedOp::Mul))?;
        return Ok(true);
    }
    add_last(layout, unit, v, expr, code)
}

/// Adds the code of a chain whose leftmost operand is `v`, and says whether the expression is one.
#[tactic(auto, using(crate::proofs::Chains::chain_code_unfolds, crate::proofs::Chains::chain_code_none))]
fn add_chain(
    layout: &Layout,
    unit: u32,
    v: &Ref,
    which: Chain,
    expr: &Expr,
    code: &mut Instrs,
) -> Result<bool, NoMemory>
    requires { length layout.now.entities ≤ 2 ^ 32 }
    ensures found { IfOk result (λ found. found ≡ is_some (chain_code layout.now unit v.now (stands_in which) expr.now)) }
    ensures code { OnOk result (code.new ≡ code.old ++ or_empty (chain_code layout.now unit v.now (stands_in which) expr.now)) }
{
    let Some(Operation { op, left, right }) = outermost(expr) else {
        return Ok(false);
    };
    if !stands_in(which, op) {
        return Ok(false);
    }
    if is_v(v, left) {
        add_first(layout, unit, op, right, code)?;
        return Ok(true);
    }
    if !add_chain(layout, unit, v, which, left, code)? {
        return Ok(false);
    }
    add_expr(layout, unit, right, code)?;
    code.push(Instr::Binary(op))?;
    Ok(true)
}

/// Adds the code of the operand to the right of `v`: `v - e` joins `v` with `-e`.
fn add_first(
    layout: &Layout,
    unit: u32,
    op: Op,
    right: &Expr,
    code: &mut Instrs,
) -> Result<(), NoMemory>
    requires { length layout.now.entities ≤ 2 ^ 32 }
    ensures { OnOk result (code.new ≡ code.old ++ first_code op (expr_code layout.now unit right.now)) }
{
    add_expr(layout, unit, right, code)?;
    match op {
        Op::Plus => Ok(()),
        Op::Neg => Ok(()),
        Op::Not => Ok(()),
        Op::Add => Ok(()),
        Op::Sub => code.push(Instr::Unary(Op::Neg)),
        Op::Mul => Ok(()),
        Op::Div => Ok(()),
        Op::Pow => Ok(()),
        Op::Cat => Ok(()),
        Op::Rel(_) => Ok(()),
        Op::And => Ok(()),
        Op::Or => Ok(()),
        Op::Eqv => Ok(()),
        Op::Neqv => Ok(()),
    }
}

/// Adds the code of the operand of `e op v`, and its write, and says whether the expression is such a one.
fn add_last(
    layout: &Layout,
    unit: u32,
    v: &Ref,
    expr: &Expr,
    code: &mut Instrs,
) -> Result<bool, NoMemory>
    requires { length layout.now.entities ≤ 2 ^ 32 }
    ensures found { IfOk result (λ found. found ≡ is_some (last_code layout.now unit v.now (operation_of expr.now))) }
    ensures code { OnOk result (code.new ≡ code.old ++ accumulation_code (last_code layout.now unit v.now (operation_of expr.now))) }
{
    let Some(Operation { op, left, right }) = outermost(expr) else {
        return Ok(false);
    };
    let Some(by) = exchanged(op) else {
        return Ok(false);
    };
    if !is_v(v, right) {
        return Ok(false);
    }
    add_expr(layout, unit, left, code)?;
    code.push(Instr::Accumulate(by))?;
    Ok(true)
}
