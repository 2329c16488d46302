//! The values of constant expressions (ANSI X3.9-1978, section 6.7).
ghost use Rattle.std.specs.Prelude.{◌≡◌, IfOk};
ghost use Rattle.std.specs.Option.{option_copied, option_map};
ghost use Rattle.f77_constants.specs.Constants as spec;
ghost use Rattle.f77_constants.specs.Values.{meant, value_in};

use crate::operate::{binary_if, unary_if};
use crate::value::{Value, Values, copy_value};
use f77_ast::expr::{Expr, Ref};
use f77_ast::name::Name;
use hyb_base::no_memory::NoMemory;
use std::alloc::Global;

/// A copy of the value of a name.
pub fn value_of_name(alloc: Global, name: &Name, values: &Values) -> Result<Option<Value>, NoMemory>
    ensures { IfOk result (λ found. option_map meant found ≡ value_in values.now name.now) }
{
    match values.find(name) {
        None => Ok(None),
        Some(value) => Ok(Some(copy_value(alloc, value)?)),
    }
}

/// The value of a reference: none of a name that a list or a substring follows.
fn value_of_ref(alloc: Global, reference: &Ref, values: &Values) -> Result<Option<Value>, NoMemory>
    ensures { IfOk result (λ found. option_map meant found ≡ spec.value_of_ref (value_in values.now) reference.now) }
{
    if reference.args.is_some() || reference.part.is_some() {
        return Ok(None);
    }
    value_of_name(alloc, &reference.name, values)
}

/// The value of an expression, by those of names: none of what isn't constant, or faults, or has operands of wrong kinds.
pub fn value_of_expr(alloc: Global, expr: &Expr, values: &Values) -> Result<Option<Value>, NoMemory>
    ensures { IfOk result (λ found. option_map meant found ≡ spec.value_of_expr (value_in values.now) expr.now) }
{
    match expr {
        Expr::Int(number) => Ok(Some(Value::Integer(*number))),
        Expr::Truth(holds) => Ok(Some(Value::Truth(*holds))),
        Expr::Chars(text) => Ok(Some(Value::Chars(text.copy(alloc)?))),
        Expr::Ref(reference) => value_of_ref(alloc, reference, values),
        Expr::Unary(operator, operand) => {
            let operand = value_of_expr(alloc, operand.get(), values)?;
            Ok(unary_if(*operator, operand))
        }
        Expr::Binary(operator, left, right) => {
            let left = value_of_expr(alloc, left.get(), values)?;
            let right = value_of_expr(alloc, right.get(), values)?;
            binary_if(alloc, *operator, left, right)
        }
        Expr::Paren(inner) => value_of_expr(alloc, inner.get(), values),
    }
}

/// The value of an expression that may be left out.
pub fn value_of_option(
    alloc: Global,
    expr: Option<&Expr>,
    values: &Values,
) -> Result<Option<Value>, NoMemory>
    ensures { IfOk result (λ found. option_map meant found ≡ spec.value_of_option (value_in values.now) (option_copied expr.entry)) }
{
    match expr {
        None => Ok(None),
        Some(expr) => value_of_expr(alloc, expr, values),
    }
}
