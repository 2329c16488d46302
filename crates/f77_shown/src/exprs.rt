//! Expressions and references.

use crate::lists::show_comma;
use f77_ast::expr::{Expr, Op, Part, Ref};
use hyb_base::bytes::Bytes;
use hyb_base::decimal::print_i64;
use hyb_base::no_memory::NoMemory;
use hyb_base::ops::Rel;
use sqlite_items::{Boxed, Items};

/// The name of a relational operator: `eq`.
fn relation_name(relation: Rel) -> &'static [u8] {
    match relation {
        Rel::Eq => b"eq".as_slice(),
        Rel::Ne => b"ne".as_slice(),
        Rel::Lt => b"lt".as_slice(),
        Rel::Le => b"le".as_slice(),
        Rel::Gt => b"gt".as_slice(),
        Rel::Ge => b"ge".as_slice(),
    }
}

/// The name of an operator: `+` between two operands, `pos` and `neg` for a sign before one.
fn operator_name(operator: Op) -> &'static [u8] {
    match operator {
        Op::Plus => b"pos".as_slice(),
        Op::Neg => b"neg".as_slice(),
        Op::Not => b"not".as_slice(),
        Op::Add => b"+".as_slice(),
        Op::Sub => b"-".as_slice(),
        Op::Mul => b"*".as_slice(),
        Op::Div => b"/".as_slice(),
        Op::Pow => b"**".as_slice(),
        Op::Cat => b"//".as_slice(),
        Op::Rel(relation) => relation_name(relation),
        Op::And => b"and".as_slice(),
        Op::Or => b"or".as_slice(),
        Op::Eqv => b"eqv".as_slice(),
        Op::Neqv => b"neqv".as_slice(),
    }
}

/// Shows a logical constant: `true` or `false`.
pub fn show_truth(value: bool, into: &mut Bytes) -> Result<(), NoMemory> {
    into.push_slice(if value {
        b"true".as_slice()
    } else {
        b"false".as_slice()
    })
}

/// Shows a character constant between double quotes, its characters as they are: `"It's"`.
pub fn show_characters(characters: &Bytes, into: &mut Bytes) -> Result<(), NoMemory> {
    into.push(b'"')?;
    into.push_slice(characters.as_slice())?;
    into.push(b'"')
}

/// Shows a list of subscripts or arguments: `[I,(J+1)]`, and `[]` where there is none.
#[cycle(exprs)]
pub fn show_arguments(arguments: &Items<Expr>, into: &mut Bytes) -> Result<(), NoMemory> {
    into.push(b'[')?;
    for (place, argument) in arguments.as_slice().iter().enumerate() {
        show_comma(place, into)?;
        show_expr(argument, into)?;
    }
    into.push(b']')
}

/// Shows the bounds of a substring: `{2:3}`, `{2:}`, `{:3}` or `{:}`.
#[cycle(exprs)]
fn show_part(part: &Boxed<Part>, into: &mut Bytes) -> Result<(), NoMemory> {
    into.push(b'{')?;
    if let Some(low) = &part.get().low {
        show_expr(low, into)?;
    }
    into.push(b':')?;
    if let Some(high) = &part.get().high {
        show_expr(high, into)?;
    }
    into.push(b'}')
}

/// Shows a reference: `A`, `A[1]`, `A{2:3}` or `A[1]{2:3}`.
#[cycle(exprs)]
pub fn show_reference(reference: &Ref, into: &mut Bytes) -> Result<(), NoMemory> {
    into.push_slice(reference.name.as_slice())?;
    if let Some(arguments) = &reference.args {
        show_arguments(arguments, into)?;
    }
    if let Some(part) = &reference.part {
        show_part(part, into)?;
    }
    Ok(())
}

/// Shows an expression: `(A+(B[I]*2))`, `(XeqY)`, `((notL)and(NltM))`. One in parentheses is shown as `<A>`, a logical
/// constant as `true` or `false`, a character constant between double quotes.
#[cycle(exprs)]
pub fn show_expr(expr: &Expr, into: &mut Bytes) -> Result<(), NoMemory> {
    match expr {
        Expr::Int(value) => print_i64(*value, into),
        Expr::Truth(value) => show_truth(*value, into),
        Expr::Chars(characters) => show_characters(characters, into),
        Expr::Ref(reference) => show_reference(reference, into),
        Expr::Unary(operator, operand) => {
            into.push(b'(')?;
            into.push_slice(operator_name(*operator))?;
            show_expr(operand.get(), into)?;
            into.push(b')')
        }
        Expr::Binary(operator, left, right) => {
            into.push(b'(')?;
            show_expr(left.get(), into)?;
            into.push_slice(operator_name(*operator))?;
            show_expr(right.get(), into)?;
            into.push(b')')
        }
        Expr::Paren(inner) => {
            into.push(b'<')?;
            show_expr(inner.get(), into)?;
            into.push(b'>')
        }
    }
}
