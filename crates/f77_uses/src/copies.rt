//! Copies of the parts of declarations.
ghost use Rattle.std.specs.Prelude.{◌≡◌, IfOk};
ghost use Rattle.std.specs.Option.{option_or};
ghost use Rattle.f77_leaves.specs.Declarations as spec;

use f77_ast::expr::{Expr, Kind};
use f77_ast::program::Bounds;
use f77_ast::specification::{Bound, Length, TypeSpec};
use f77_leaves::declarations::Typing;
use f77_trees::copy::copy_expr;
use hyb_base::no_memory::NoMemory;
use std::alloc::Global;

/// A copy of an expression that may be left out.
fn copy_option(alloc: Global, expr: &Option<Expr>) -> Result<Option<Expr>, NoMemory>
    ensures { IfOk result (λ copy. copy ≡ expr.now) }
{
    match expr {
        None => Ok(None),
        Some(expr) => Ok(Some(copy_expr(alloc, expr)?)),
    }
}

/// A copy of bounds.
pub fn copy_bounds(alloc: Global, bounds: &[Bound]) -> Result<Bounds, NoMemory>
    ensures { IfOk result (λ copies. copies ≡ bounds.now) }
{
    let mut copies = Bounds::new(alloc);
    for bound in bounds {
        let low = copy_option(alloc, &bound.low)?;
        let high = copy_option(alloc, &bound.high)?;
        copies.push(Bound { low, high })?;
    }
    Ok(copies)
}

/// A copy of a length that may be left out.
fn copy_length(alloc: Global, length: &Option<Length>) -> Result<Option<Length>, NoMemory>
    ensures { IfOk result (λ copy. copy ≡ length.now) }
{
    match length {
        None => Ok(None),
        Some(Length::Digits(digits)) => Ok(Some(Length::Digits(*digits))),
        Some(Length::Paren(expr)) => Ok(Some(Length::Paren(copy_expr(alloc, expr)?))),
        Some(Length::Asterisk) => Ok(Some(Length::Asterisk)),
    }
}

/// A copy of the first of two lengths that is there.
fn copy_first(
    alloc: Global,
    own: &Option<Length>,
    common: &Option<Length>,
) -> Result<Option<Length>, NoMemory>
    ensures { IfOk result (λ copy. copy ≡ option_or own.now common.now) }
{
    match own {
        None => copy_length(alloc, common),
        Some(_) => copy_length(alloc, own),
    }
}

/// The type that a type statement, FUNCTION or IMPLICIT gives, with a length of its own before that of the statement.
pub fn typing_by(alloc: Global, typ: &TypeSpec, own: &Option<Length>) -> Result<Typing, NoMemory>
    ensures { IfOk result (λ typing. typing ≡ spec.typing_by typ.now own.now) }
{
    match typ {
        TypeSpec::Integer => {
            let length = copy_length(alloc, own)?;
            Ok(Typing {
                kind: Kind::Integer,
                length,
            })
        }
        TypeSpec::Logical => {
            let length = copy_length(alloc, own)?;
            Ok(Typing {
                kind: Kind::Logical,
                length,
            })
        }
        TypeSpec::Character(common) => {
            let length = copy_first(alloc, own, common)?;
            Ok(Typing {
                kind: Kind::Character,
                length,
            })
        }
    }
}

/// A copy of a type.
pub fn copy_typing(alloc: Global, typing: &Typing) -> Result<Typing, NoMemory>
    ensures { IfOk result (λ copy. copy ≡ typing.now) }
{
    let length = copy_length(alloc, &typing.length)?;
    Ok(Typing {
        kind: typing.kind,
        length,
    })
}
