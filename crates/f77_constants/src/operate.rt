//! What operators give on values (ANSI X3.9-1978, sections 6.1 to 6.4).
ghost use Rattle.std.specs.Prelude.{◌≡◌, IfOk, option_and_then};
ghost use Rattle.std.specs.Option.{option_map};
ghost use Rattle.std.specs.Ordering.{int_cmp};
ghost use Rattle.f77_structure.specs.Values as spec;
ghost use Rattle.f77_constants.specs.Constants.{given_value};
ghost use Rattle.f77_constants.specs.Values.{meant};

use crate::texts::{compared, concatenated};
use crate::value::Value;
use f77_ast::expr::Op;
use hyb_base::no_memory::NoMemory;
use hyb_base::ops::Rel;
use hyb_base::wrap::{wrap_add, wrap_div, wrap_mul, wrap_neg, wrap_pow, wrap_sub};
use std::alloc::Global;
use std::cmp::Ordering;

/// Whether a relation holds, by how its left side compares with its right one.
fn holds_by(relation: Rel, order: Ordering) -> bool
    ensures { result ≡ spec.holds_by relation order }
{
    match relation {
        Rel::Eq => order.is_eq(),
        Rel::Ne => order.is_ne(),
        Rel::Lt => order.is_lt(),
        Rel::Le => order.is_le(),
        Rel::Gt => order.is_gt(),
        Rel::Ge => order.is_ge(),
    }
}

/// A number that may be there, as a value.
fn number(given: Option<i64>) -> Option<Value>
    ensures { option_map meant result ≡ given_value (spec.number_or_zero_divisor given) }
{
    match given {
        None => None,
        Some(number) => Some(Value::Integer(number)),
    }
}

/// What an operator gives on a number: none of one that takes no number.
fn of_number(operator: Op, x: i64) -> Option<Value>
    ensures { option_map meant result ≡ given_value (spec.unary_of operator (spec.integer x)) }
{
    match operator {
        Op::Plus => Some(Value::Integer(x)),
        Op::Neg => Some(Value::Integer(wrap_neg(x))),
        Op::Not => None,
        Op::Add => None,
        Op::Sub => None,
        Op::Mul => None,
        Op::Div => None,
        Op::Pow => None,
        Op::Cat => None,
        Op::Rel(_) => None,
        Op::And => None,
        Op::Or => None,
        Op::Eqv => None,
        Op::Neqv => None,
    }
}

/// What an operator gives on true or false: none of one that takes no truth.
fn of_truth(operator: Op, x: bool) -> Option<Value>
    ensures { option_map meant result ≡ given_value (spec.unary_of operator (spec.truth x)) }
{
    match operator {
        Op::Plus => None,
        Op::Neg => None,
        Op::Not => Some(Value::Truth(!x)),
        Op::Add => None,
        Op::Sub => None,
        Op::Mul => None,
        Op::Div => None,
        Op::Pow => None,
        Op::Cat => None,
        Op::Rel(_) => None,
        Op::And => None,
        Op::Or => None,
        Op::Eqv => None,
        Op::Neqv => None,
    }
}

/// What an operator with one operand gives: none where it takes no such operand.
pub fn unary(operator: Op, operand: Value) -> Option<Value>
    ensures { option_map meant result ≡ given_value (spec.unary_of operator (meant operand)) }
{
    match operand {
        Value::Integer(x) => of_number(operator, x),
        Value::Truth(x) => of_truth(operator, x),
        Value::Chars(_) => None,
    }
}

/// What an operator gives on two numbers: none of one that takes no numbers, and of a zero divisor.
fn of_numbers(operator: Op, x: i64, y: i64) -> Option<Value>
    ensures { option_map meant result ≡ given_value (spec.binary_of operator (spec.integer x) (spec.integer y)) }
{
    match operator {
        Op::Plus => None,
        Op::Neg => None,
        Op::Not => None,
        Op::Add => Some(Value::Integer(wrap_add(x, y))),
        Op::Sub => Some(Value::Integer(wrap_sub(x, y))),
        Op::Mul => Some(Value::Integer(wrap_mul(x, y))),
        Op::Div => number(wrap_div(x, y)),
        Op::Pow => number(wrap_pow(x, y)),
        Op::Cat => None,
        Op::Rel(relation) => Some(Value::Truth(holds_by(relation, x.cmp(&y)))),
        Op::And => None,
        Op::Or => None,
        Op::Eqv => None,
        Op::Neqv => None,
    }
}

/// What an operator gives on two truths: none of one that takes no truths.
fn of_truths(operator: Op, x: bool, y: bool) -> Option<Value>
    ensures { option_map meant result ≡ given_value (spec.binary_of operator (spec.truth x) (spec.truth y)) }
{
    match operator {
        Op::Plus => None,
        Op::Neg => None,
        Op::Not => None,
        Op::Add => None,
        Op::Sub => None,
        Op::Mul => None,
        Op::Div => None,
        Op::Pow => None,
        Op::Cat => None,
        Op::Rel(_) => None,
        Op::And => Some(Value::Truth(x && y)),
        Op::Or => Some(Value::Truth(x || y)),
        Op::Eqv => Some(Value::Truth(x == y)),
        Op::Neqv => Some(Value::Truth(x != y)),
    }
}

/// What an operator gives on two texts: none of one that takes no texts.
fn of_texts(alloc: Global, operator: Op, x: &[u8], y: &[u8]) -> Result<Option<Value>, NoMemory>
    ensures { IfOk result (λ given. option_map meant given ≡ given_value (spec.binary_of operator (spec.chars x.now) (spec.chars y.now))) }
{
    match operator {
        Op::Plus => Ok(None),
        Op::Neg => Ok(None),
        Op::Not => Ok(None),
        Op::Add => Ok(None),
        Op::Sub => Ok(None),
        Op::Mul => Ok(None),
        Op::Div => Ok(None),
        Op::Pow => Ok(None),
        Op::Cat => Ok(Some(Value::Chars(concatenated(alloc, x, y)?))),
        Op::Rel(relation) => {
            let order = compared(alloc, x, y)?;
            Ok(Some(Value::Truth(holds_by(relation, order))))
        }
        Op::And => Ok(None),
        Op::Or => Ok(None),
        Op::Eqv => Ok(None),
        Op::Neqv => Ok(None),
    }
}

/// What an operator with two operands gives: none where it takes no such operands, and of a zero divisor.
pub fn binary(
    alloc: Global,
    operator: Op,
    left: Value,
    right: Value,
) -> Result<Option<Value>, NoMemory>
    ensures { IfOk result (λ given. option_map meant given ≡ given_value (spec.binary_of operator (meant left) (meant right))) }
{
    match (left, right) {
        (Value::Integer(x), Value::Integer(y)) => Ok(of_numbers(operator, x, y)),
        (Value::Integer(_), Value::Truth(_)) => Ok(None),
        (Value::Integer(_), Value::Chars(_)) => Ok(None),
        (Value::Truth(_), Value::Integer(_)) => Ok(None),
        (Value::Truth(x), Value::Truth(y)) => Ok(of_truths(operator, x, y)),
        (Value::Truth(_), Value::Chars(_)) => Ok(None),
        (Value::Chars(_), Value::Integer(_)) => Ok(None),
        (Value::Chars(_), Value::Truth(_)) => Ok(None),
        (Value::Chars(x), Value::Chars(y)) => {
            of_texts(alloc, operator, x.as_slice(), y.as_slice())
        }
    }
}

/// What an operator with one operand gives, where there is an operand.
pub fn unary_if(operator: Op, operand: Option<Value>) -> Option<Value>
    ensures { option_map meant result ≡ option_and_then (λ x. given_value (spec.unary_of operator x)) (option_map meant operand) }
{
    match operand {
        None => None,
        Some(x) => unary(operator, x),
    }
}

/// What an operator with two operands gives, where there are both.
pub fn binary_if(
    alloc: Global,
    operator: Op,
    left: Option<Value>,
    right: Option<Value>,
) -> Result<Option<Value>, NoMemory>
    ensures { IfOk result (λ given. option_map meant given ≡ option_and_then (λ x. option_and_then (λ y. given_value (spec.binary_of operator x y)) (option_map meant right)) (option_map meant left)) }
{
    match (left, right) {
        (None, _) => Ok(None),
        (Some(_), None) => Ok(None),
        (Some(x), Some(y)) => binary(alloc, operator, x, y),
    }
}
