//! The value of an expression, from the values of the addresses that it reads (ANSI X3.9-1978, section 6).
ghost use Rattle.std.specs.Prelude.{◌≡◌, ◌+◌, ◌<◌, ◌≤◌, ◌^◌, IsTrue, Some, map, length};
ghost use Rattle.std.specs.Option.{option_map};
ghost use Rattle.f77_ast.specs.declared.expr.Expr.{Binary};
ghost use Rattle.f77_ast.specs.declared.expr.Kind.TheVariants.{Integer};
ghost use Rattle.f77_structure.specs.HasMeaning.{expr_has_meaning, ref_has_meaning, target_has_meaning, names_integer};
ghost use Rattle.f77_structure.specs.Storage.{IsStorage, LiesIn, is_stored};
ghost use Rattle.f77_structure.specs.Values.{integer, is_sign, is_arithmetic, number_or_zero_divisor, unary_of, binary_of};
ghost use Rattle.f77_meaning.specs.Demand.{Setting, and_then, demand_of, location_of, located, term_of, value_at, operated};
ghost use Rattle.f77_machine.specs.Evaluated.{as_located, located_demand, value_demand, Asks, GivesIntegerBelow};
ghost use Rattle.f77_machine.specs.Reads.{reads_in, args_reads, subscript_reads};
ghost use Rattle.f77_machine.specs.Setting.{setting_in};

use crate::evaluated::Evaluated;
use crate::place::{Located, element, entity, variable};
use f77_ast::expr::{Expr, Op, Ref};
use f77_ast::fault::Fault;
use f77_ast::program::{Entity, Program};
use f77_structure::storage::constant_number;
use hyb_base::wrap::{wrap_add, wrap_div, wrap_mul, wrap_neg, wrap_pow, wrap_sub};
use sqlite_items::Items;

/// Evaluates an expression of type INTEGER in a unit from left to right, taking the values that it reads from the
/// answers. A reference reads its subscript, and then its address; a constant's name reads nothing.
#[cycle(demand)]
pub fn demand<'a>(
    program: &Program,
    unit: u32,
    expr: &Expr,
    answers: &'a [i64],
) -> Evaluated<'a, i64>
    requires storage { IsStorage program.now.layout }
    requires meaning { IsTrue (expr_has_meaning program.now.units program.now.layout unit expr.now) }
    ensures value { value_demand result ≡ demand_of (setting_in program.now unit) expr.now answers.now }
    ensures asks { Asks (length program.now.layout.first) (reads_in expr.now) (length answers.now) result }
{
    match expr {
        Expr::Int(value) => Evaluated::Gives(*value, answers),
        Expr::Truth(_) => unreachable!(),
        Expr::Chars(_) => unreachable!(),
        Expr::Ref(reference) => reference_value(program, unit, reference, answers),
        Expr::Unary(op, operand) => match demand(program, unit, operand.get(), answers) {
            Evaluated::Gives(x, rest) => unary(*op, x, rest),
            Evaluated::Wants(address, by) => Evaluated::Wants(address, by),
            Evaluated::Fails(fault) => Evaluated::Fails(fault),
        },
        Expr::Binary(op, left, right) => {
            let (left, right) = (left.get(), right.get());
            operands_have_meaning(program, unit, expr, *op, left, right);
            match demand(program, unit, left, answers) {
                Evaluated::Gives(x, rest) => match demand(program, unit, right, rest) {
                    Evaluated::Gives(y, more) => binary(*op, x, y, more),
                    Evaluated::Wants(address, by) => Evaluated::Wants(address, by),
                    Evaluated::Fails(fault) => Evaluated::Fails(fault),
                },
                Evaluated::Wants(address, by) => Evaluated::Wants(address, by),
                Evaluated::Fails(fault) => Evaluated::Fails(fault),
            }
        }
        Expr::Paren(inner) => demand(program, unit, inner.get(), answers),
    }
}

/// A law for the prover, which does nothing: where an operator with two operands has a meaning, it is arithmetic, and its
/// operands have one.
fn operands_have_meaning(
    program: &Program,
    unit: u32,
    expr: &Expr,
    op: Op,
    left: &Expr,
    right: &Expr,
)
    requires is { expr.now ≡ Binary op left.now right.now }
    requires meaning { IsTrue (expr_has_meaning program.now.units program.now.layout unit expr.now) }
    ensures op { IsTrue (is_arithmetic op) }
    ensures left { IsTrue (expr_has_meaning program.now.units program.now.layout unit left.now) }
    ensures right { IsTrue (expr_has_meaning program.now.units program.now.layout unit right.now) }
{}

/// The value of a reference. A constant is its number, without a read (section 8.6); a variable or an element is read at
/// its address.
#[cycle(demand)]
fn reference_value<'a>(
    program: &Program,
    unit: u32,
    reference: &Ref,
    answers: &'a [i64],
) -> Evaluated<'a, i64>
    requires storage { IsStorage program.now.layout }
    requires meaning { IsTrue (ref_has_meaning program.now.units program.now.layout unit reference.now) }
    ensures value { value_demand result ≡ and_then (location_of (setting_in program.now unit) reference.now answers.now) (value_at (setting_in program.now unit)) }
    ensures asks { Asks (length program.now.layout.first) (1 + subscript_reads reference.now) (length answers.now) result }
{
    match entity(&program.layout, unit, &reference.name) {
        Some(entity) => match constant_number(&entity.place) {
            Some(number) => Evaluated::Gives(number, answers),
            None => match located(program, unit, entity, &reference.args, answers) {
                Evaluated::Gives(place, rest) => integer_at(place, rest),
                Evaluated::Wants(address, by) => Evaluated::Wants(address, by),
                Evaluated::Fails(fault) => Evaluated::Fails(fault),
            },
        },
        None => Evaluated::Fails(Fault::Subscript),
    }
}

/// What the left side of an assignment names: a variable, or an array's element, whose subscript is evaluated first and
/// then checked (section 5.4).
pub fn location<'a>(
    program: &Program,
    unit: u32,
    target: &Ref,
    answers: &'a [i64],
) -> Evaluated<'a, Located>
    requires storage { IsStorage program.now.layout }
    requires meaning { IsTrue (target_has_meaning program.now.units program.now.layout unit target.now) }
    ensures value { located_demand program.now.layout result ≡ location_of (setting_in program.now unit) target.now answers.now }
    ensures asks { Asks (length program.now.layout.first) (subscript_reads target.now) (length answers.now) result }
    ensures lies { GivesIntegerBelow (length program.now.layout.first) result }
{
    match entity(&program.layout, unit, &target.name) {
        Some(entity) => located(program, unit, entity, &target.args, answers),
        None => Evaluated::Fails(Fault::Subscript),
    }
}

/// The place of an entity in storage with such a list of subscripts.
#[cycle(demand)]
fn located<'a>(
    program: &Program,
    unit: u32,
    entity: &Entity,
    args: &Option<Items<Expr>>,
    answers: &'a [i64],
) -> Evaluated<'a, Located>
    requires storage { IsStorage program.now.layout }
    requires lies { LiesIn (length program.now.layout.first) program.now.layout.regions entity.now }
    requires stored { IsTrue (is_stored entity.now.place) }
    requires meaning { IsTrue (names_integer (Some entity.now) (option_map (map (expr_has_meaning program.now.units program.now.layout unit)) args.now)) }
    ensures value { located_demand program.now.layout result ≡ located (setting_in program.now unit) (Some entity.now) (option_map (map (term_of (setting_in program.now unit))) args.now) answers.now }
    ensures asks { Asks (length program.now.layout.first) (args_reads (option_map (map reads_in) args.now)) (length answers.now) result }
    ensures lies { GivesIntegerBelow (length program.now.layout.first) result }
{
    match args {
        None => variable(entity, answers),
        Some(subscripts) => match subscripts.as_slice() {
            [] => Evaluated::Fails(Fault::Subscript),
            [subscript] => match demand(program, unit, subscript, answers) {
                Evaluated::Gives(s, rest) => element(entity, s, rest),
                Evaluated::Wants(address, by) => Evaluated::Wants(address, by),
                Evaluated::Fails(fault) => Evaluated::Fails(fault),
            },
            [_, _, ..] => Evaluated::Fails(Fault::Subscript),
        },
    }
}

/// The value of an INTEGER variable or element: the next answer, or its address is read next.
#[tactic(auto, using(crate::proofs::Cells::one_cell))]
fn integer_at<'a>(place: Located, rest: &'a [i64]) -> Evaluated<'a, i64>
    requires { place.kind ≡ Integer }
    ensures value { (s : Setting) → value_demand result ≡ value_at s (as_located s.program.layout place) rest.now }
    ensures asks { Asks (place.address + 1) 1 (length rest.now) result }
{
    match rest.split_first() {
        Some((value, left)) => Evaluated::Gives(*value, left),
        None => Evaluated::Wants(place.address, None),
    }
}

/// A sign before an operand (section 6.1.1).
fn unary<'a>(op: Op, x: i64, rest: &'a [i64]) -> Evaluated<'a, i64>
    requires { IsTrue (is_sign op) }
    ensures value { value_demand result ≡ operated (unary_of op (integer x)) rest.now }
    ensures asks { Asks 0 0 (length rest.now) result }
{
    match op {
        Op::Plus => Evaluated::Gives(x, rest),
        Op::Neg => Evaluated::Gives(wrap_neg(x), rest),
        Op::Not => unreachable!(),
        Op::Add => unreachable!(),
        Op::Sub => unreachable!(),
        Op::Mul => unreachable!(),
        Op::Div => unreachable!(),
        Op::Pow => unreachable!(),
        Op::Cat => unreachable!(),
        Op::Rel(_) => unreachable!(),
        Op::And => unreachable!(),
        Op::Or => unreachable!(),
        Op::Eqv => unreachable!(),
        Op::Neqv => unreachable!(),
    }
}

/// An arithmetic operator between two operands (section 6.1.1).
fn binary<'a>(op: Op, x: i64, y: i64, rest: &'a [i64]) -> Evaluated<'a, i64>
    requires { IsTrue (is_arithmetic op) }
    ensures value { value_demand result ≡ operated (binary_of op (integer x) (integer y)) rest.now }
    ensures asks { Asks 0 0 (length rest.now) result }
{
    match op {
        Op::Plus => unreachable!(),
        Op::Neg => unreachable!(),
        Op::Not => unreachable!(),
        Op::Add => Evaluated::Gives(wrap_add(x, y), rest),
        Op::Sub => Evaluated::Gives(wrap_sub(x, y), rest),
        Op::Mul => Evaluated::Gives(wrap_mul(x, y), rest),
        Op::Div => number_or_zero_divisor(wrap_div(x, y), rest),
        Op::Pow => number_or_zero_divisor(wrap_pow(x, y), rest),
        Op::Cat => unreachable!(),
        Op::Rel(_) => unreachable!(),
        Op::And => unreachable!(),
        Op::Or => unreachable!(),
        Op::Eqv => unreachable!(),
        Op::Neqv => unreachable!(),
    }
}

/// A number, or a zero divisor where there is none.
fn number_or_zero_divisor<'a>(number: Option<i64>, rest: &'a [i64]) -> Evaluated<'a, i64>
    ensures value { value_demand result ≡ operated (number_or_zero_divisor number) rest.now }
    ensures asks { Asks 0 0 (length rest.now) result }
{
    match number {
        Some(number) => Evaluated::Gives(number, rest),
        None => Evaluated::Fails(Fault::ZeroDivisor),
    }
}
