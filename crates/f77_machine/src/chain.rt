//! The right side of an accumulation to `v`: a chain of operators that begins with `v`, or `e + v` or `e * v`.
ghost use Rattle.std.specs.Prelude.{◌≡◌, ◌+◌, ◌≤◌, ℕ, suc, IsTrue, IfSome, length};
ghost use Rattle.std.specs.Option.{option_map};
ghost use Rattle.f77_ast.specs.declared.program.Program.{Program};
ghost use Rattle.f77_structure.specs.HasMeaning.{expr_has_meaning};
ghost use Rattle.f77_structure.specs.Storage.{IsStorage};
ghost use Rattle.f77_meaning.specs.Assign.{stands_in_sum, stands_in_product, exchanged, is_v, joined_by, held_last, chain_of, last_by, accumulation_of, operation_of, operators_at_left};
ghost use Rattle.f77_meaning.specs.Demand.{and_then, number_demand};
ghost use Rattle.f77_machine.specs.Evaluated.{as_demand, Asks};
ghost use Rattle.f77_machine.specs.Chain.{as_operation, as_valued, stands_in, accumulation_at, held_at, with_operand};
ghost use Rattle.f77_machine.specs.Reads.{reads_in};
ghost use Rattle.f77_machine.specs.Setting.{setting_in};

use crate::demand::demand;
use crate::evaluated::Evaluated;
use f77_ast::expr::{Expr, Op, Ref};
use f77_ast::program::Program;
use f77_trees::same::same_ref;
use hyb_base::ops::RedOp;
use hyb_base::wrap::{wrap_add, wrap_mul, wrap_sub};

/// The chains that an accumulation may be.
#[derive(Clone, Copy, Debug)]
pub enum Chain {
    /// A chain of `+` and `-`.
    Sum,
    /// A chain of `*`.
    Product,
}

/// Whether an operator is one of a chain.
fn stands_in(chain: Chain, op: Op) -> bool
    ensures { result ≡ stands_in chain op }
{
    match chain {
        Chain::Sum => stands_in_sum(op),
        Chain::Product => stands_in_product(op),
    }
}

/// Whether an operator is `+` or `-`.
fn stands_in_sum(op: Op) -> bool
    ensures { result ≡ stands_in_sum op }
{
    match op {
        Op::Plus => false,
        Op::Neg => false,
        Op::Not => false,
        Op::Add => true,
        Op::Sub => true,
        Op::Mul => false,
        Op::Div => false,
        Op::Pow => false,
        Op::Cat => false,
        Op::Rel(_) => false,
        Op::And => false,
        Op::Or => false,
        Op::Eqv => false,
        Op::Neqv => false,
    }
}

/// Whether an operator is `*`.
fn stands_in_product(op: Op) -> bool
    ensures { result ≡ stands_in_product op }
{
    match op {
        Op::Plus => false,
        Op::Neg => false,
        Op::Not => false,
        Op::Add => false,
        Op::Sub => false,
        Op::Mul => true,
        Op::Div => false,
        Op::Pow => false,
        Op::Cat => false,
        Op::Rel(_) => false,
        Op::And => false,
        Op::Or => false,
        Op::Eqv => false,
        Op::Neqv => false,
    }
}

/// The operator of an accumulation `e op v`.
fn exchanged(op: Op) -> Option<RedOp>
    ensures { result ≡ exchanged op }
{
    match op {
        Op::Plus => None,
        Op::Neg => None,
        Op::Not => None,
        Op::Add => Some(RedOp::Add),
        Op::Sub => None,
        Op::Mul => Some(RedOp::Mul),
        Op::Div => None,
        Op::Pow => None,
        Op::Cat => None,
        Op::Rel(_) => None,
        Op::And => None,
        Op::Or => None,
        Op::Eqv => None,
        Op::Neqv => None,
    }
}

/// Whether an expression is a reference, spelled as this one.
fn is_v(v: &Ref, expr: &Expr) -> bool
    ensures value { result ≡ is_v v.now expr.now }
    ensures reads { IsTrue result → 1 ≤ reads_in expr.now }
{
    match expr {
        Expr::Int(_) => false,
        Expr::Truth(_) => false,
        Expr::Chars(_) => false,
        Expr::Ref(reference) => same_ref(v, reference),
        Expr::Unary(_, _) => false,
        Expr::Binary(_, _, _) => false,
        Expr::Paren(_) => false,
    }
}

/// An operator and its two operands.
#[derive(Clone, Copy)]
struct Operation<'t> {
    op: Op,
    left: &'t Expr,
    right: &'t Expr,
}

/// The outermost operator of an expression, where it has two operands.
fn outermost(expr: &Expr) -> Option<Operation<'_>>
    ensures value { option_map as_operation result ≡ operation_of expr.now }
    ensures operators { IfSome result (λ o. operators_at_left expr.now ≡ suc (operators_at_left o.left.now)) }
    ensures reads { IfSome result (λ o. reads_in expr.now ≡ reads_in o.left.now + reads_in o.right.now) }
    ensures meaning { (program : Program) (unit : ℕ) → IsTrue (expr_has_meaning program.units program.layout unit expr.now)
        → IfSome result (λ o. IsTrue (expr_has_meaning program.units program.layout unit o.left.now) × IsTrue (expr_has_meaning program.units program.layout unit o.right.now)) }
{
    match expr {
        Expr::Int(_) => None,
        Expr::Truth(_) => None,
        Expr::Chars(_) => None,
        Expr::Ref(_) => None,
        Expr::Unary(_, _) => None,
        Expr::Binary(op, left, right) => Some(Operation {
            op: *op,
            left: left.get(),
            right: right.get(),
        }),
        Expr::Paren(_) => None,
    }
}

/// The right side of an accumulation, where `v` has a value.
#[derive(Clone, Copy, Debug)]
pub struct Valued<'a> {
    /// The operator of the accumulation.
    pub op: RedOp,
    /// The value of the right side.
    pub value: Evaluated<'a, i64>,
}

/// The operator of an accumulation and the value of its right side, where `v` has the value `x` and isn't read: none
/// where the assignment is no accumulation. The first form that fits counts.
pub fn held<'a>(
    program: &Program,
    unit: u32,
    v: &Ref,
    expr: &Expr,
    x: i64,
    answers: &'a [i64],
) -> Option<Valued<'a>>
    requires storage { IsStorage program.now.layout }
    requires meaning { IsTrue (expr_has_meaning program.now.units program.now.layout unit expr.now) }
    ensures value { option_map as_valued result ≡ option_map (accumulation_at x answers.now) (accumulation_of (setting_in program.now unit) v.now expr.now) }
    ensures asks { IfSome result (λ a. Asks (length program.now.layout.first) (reads_in expr.now) (1 + length answers.now) a.value) }
{
    match chained(program, unit, v, Chain::Sum, expr, x, answers) {
        Some(value) => Some(Valued {
            op: RedOp::Add,
            value,
        }),
        None => match chained(program, unit, v, Chain::Product, expr, x, answers) {
            Some(value) => Some(Valued {
                op: RedOp::Mul,
                value,
            }),
            None => last(program, unit, v, expr, x, answers),
        },
    }
}

/// The value of a chain whose leftmost operand is `v`: none where the expression is no such chain.
#[tactic(auto, using(crate::proofs::Chains::chain_unfolds, crate::proofs::Chains::chain_none, crate::proofs::Chains::longer_at))]
fn chained<'a>(
    program: &Program,
    unit: u32,
    v: &Ref,
    which: Chain,
    expr: &Expr,
    x: i64,
    answers: &'a [i64],
) -> Option<Evaluated<'a, i64>>
    requires storage { IsStorage program.now.layout }
    requires meaning { IsTrue (expr_has_meaning program.now.units program.now.layout unit expr.now) }
    ensures value { option_map as_demand result ≡ option_map (held_at x answers.now) (chain_of (setting_in program.now unit) v.now (stands_in which) expr.now) }
    ensures asks { IfSome result (Asks (length program.now.layout.first) (reads_in expr.now) (1 + length answers.now)) }
{
    let Operation { op, left, right } = outermost(expr)?;
    if !stands_in(which, op) {
        return None;
    }
    if is_v(v, left) {
        return Some(before(program, unit, op, x, right, answers));
    }
    let inner = chained(program, unit, v, which, left, x, answers);
    longer(program, unit, op, inner, right)
}

/// The value of a chain, where there is one, and one operand more to its right.
fn longer<'a>(
    program: &Program,
    unit: u32,
    op: Op,
    inner: Option<Evaluated<'a, i64>>,
    right: &Expr,
) -> Option<Evaluated<'a, i64>>
    requires storage { IsStorage program.now.layout }
    requires meaning { IsTrue (expr_has_meaning program.now.units program.now.layout unit right.now) }
    ensures value { option_map as_demand result ≡ option_map (λ d. and_then d (with_operand op (number_demand (setting_in program.now unit) right.now))) (option_map as_demand inner.entry) }
    ensures asks { (need known : ℕ) → IfSome inner.entry (Asks (length program.now.layout.first) need known)
        → IfSome result (Asks (length program.now.layout.first) (need + reads_in right.now) known) }
{
    match inner? {
        Evaluated::Gives(z, rest) => Some(before(program, unit, op, z, right, rest)),
        Evaluated::Wants(address, by) => Some(Evaluated::Wants(address, by)),
        Evaluated::Fails(fault) => Some(Evaluated::Fails(fault)),
    }
}

/// The operator and the value of `e op v`: none where the expression is no such one.
fn last<'a>(
    program: &Program,
    unit: u32,
    v: &Ref,
    expr: &Expr,
    x: i64,
    answers: &'a [i64],
) -> Option<Valued<'a>>
    requires storage { IsStorage program.now.layout }
    requires meaning { IsTrue (expr_has_meaning program.now.units program.now.layout unit expr.now) }
    ensures value { option_map as_valued result ≡ option_map (accumulation_at x answers.now) (last_by (setting_in program.now unit) v.now (operation_of expr.now)) }
    ensures asks { IfSome result (λ a. Asks (length program.now.layout.first) (reads_in expr.now) (1 + length answers.now) a.value) }
{
    let Operation { op, left, right } = outermost(expr)?;
    let by = exchanged(op)?;
    if is_v(v, right) {
        Some(Valued {
            op: by,
            value: after(program, unit, op, left, x, answers),
        })
    } else {
        None
    }
}

/// An operator between a value and an operand to its right.
fn before<'a>(
    program: &Program,
    unit: u32,
    op: Op,
    x: i64,
    right: &Expr,
    answers: &'a [i64],
) -> Evaluated<'a, i64>
    requires storage { IsStorage program.now.layout }
    requires meaning { IsTrue (expr_has_meaning program.now.units program.now.layout unit right.now) }
    ensures value { as_demand result ≡ with_operand op (number_demand (setting_in program.now unit) right.now) x answers.now }
    ensures asks { Asks (length program.now.layout.first) (reads_in right.now) (length answers.now) result }
{
    match demand(program, unit, right, answers) {
        Evaluated::Gives(y, rest) => Evaluated::Gives(joined(op, x, y), rest),
        Evaluated::Wants(address, by) => Evaluated::Wants(address, by),
        Evaluated::Fails(fault) => Evaluated::Fails(fault),
    }
}

/// An operator between an operand and a value to its right.
fn after<'a>(
    program: &Program,
    unit: u32,
    op: Op,
    left: &Expr,
    x: i64,
    answers: &'a [i64],
) -> Evaluated<'a, i64>
    requires storage { IsStorage program.now.layout }
    requires meaning { IsTrue (expr_has_meaning program.now.units program.now.layout unit left.now) }
    ensures value { as_demand result ≡ held_at x answers.now (held_last op (number_demand (setting_in program.now unit) left.now)) }
    ensures asks { Asks (length program.now.layout.first) (reads_in left.now) (length answers.now) result }
{
    match demand(program, unit, left, answers) {
        Evaluated::Gives(y, rest) => Evaluated::Gives(joined(op, y, x), rest),
        Evaluated::Wants(address, by) => Evaluated::Wants(address, by),
        Evaluated::Fails(fault) => Evaluated::Fails(fault),
    }
}

/// What an operator of an accumulation gives of its operands.
fn joined(op: Op, x: i64, y: i64) -> i64
    ensures { result ≡ joined_by op x y }
{
    match op {
        Op::Plus => 0,
        Op::Neg => 0,
        Op::Not => 0,
        Op::Add => wrap_add(x, y),
        Op::Sub => wrap_sub(x, y),
        Op::Mul => wrap_mul(x, y),
        Op::Div => 0,
        Op::Pow => 0,
        Op::Cat => 0,
        Op::Rel(_) => 0,
        Op::And => 0,
        Op::Or => 0,
        Op::Eqv => 0,
        Op::Neqv => 0,
    }
}
