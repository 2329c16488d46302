//! The code of expressions and references (ANSI X3.9-1978, sections 5.3, 5.4 and 6).
ghost use Rattle.std.specs.Prelude.{◌≡◌, ◌≤◌, ◌^◌, ◌++◌, map, length, OnOk};
ghost use Rattle.std.specs.Option.{option_copied, option_map};
ghost use Rattle.f77_ast.specs.Entity.{entity_in};
ghost use Rattle.f77_ast.specs.declared.expr.Ref.{out-Ref};
ghost use Rattle.f77_code.specs.Exprs.{constant_named, expr_code, literal_at, literal_code, place_code, ref_code};

use f77_ast::code::{Instr, Instrs};
use f77_ast::expr::{Expr, Part, Ref};
use f77_ast::program::{Layout, Place};
use hyb_base::no_memory::NoMemory;
use sqlite_items::{Boxed, Items};

/// The literal that a constant is; none of what is stored, and of a dummy.
fn literal_at(place: &Place) -> Option<&Expr>
    ensures { option_copied result ≡ literal_at place.now }
{
    match place {
        Place::Stored(_) => None,
        Place::Dummy(_) => None,
        Place::Constant(literal) => Some(literal),
    }
}

/// The literal of the constant that a reference names; none where subscripts or a substring follow the name, or it is no constant's.
fn constant_named<'l>(layout: &'l Layout, unit: u32, reference: &Ref) -> Option<&'l Expr>
    ensures { option_copied result ≡ constant_named (entity_in layout.now.entities unit (out-Ref reference.now).name) (out-Ref reference.now).args (option_map (λ p. tt) (out-Ref reference.now).part) }
{
    if reference.args.is_some() || reference.part.is_some() {
        return None;
    }
    match layout.entities.find(unit, &reference.name) {
        None => None,
        Some(found) => literal_at(&found.place),
    }
}

/// Adds the code of a literal. A character constant has no meaning yet, and no other expression is a literal.
fn add_literal(literal: &Expr, code: &mut Instrs) -> Result<(), NoMemory>
    ensures { OnOk result (code.new ≡ code.old ++ literal_code literal.now) }
{
    match literal {
        Expr::Int(number) => code.push(Instr::Lit(*number)),
        Expr::Truth(holds) => code.push(Instr::Truth(*holds)),
        Expr::Chars(_) => Ok(()),
        Expr::Ref(_) => Ok(()),
        Expr::Unary(_, _) => Ok(()),
        Expr::Binary(_, _, _) => Ok(()),
        Expr::Paren(_) => Ok(()),
    }
}

/// Adds the code of an expression: it leaves its value on the stack. The name of a constant is compiled as its literal.
#[cycle(exprs)]
pub fn add_expr(layout: &Layout, unit: u32, expr: &Expr, code: &mut Instrs) -> Result<(), NoMemory>
    requires { length layout.now.entities ≤ 2 ^ 32 }
    ensures { OnOk result (code.new ≡ code.old ++ expr_code layout.now unit expr.now) }
{
    match expr {
        Expr::Int(number) => code.push(Instr::Lit(*number)),
        Expr::Truth(holds) => code.push(Instr::Truth(*holds)),
        Expr::Chars(_) => Ok(()),
        Expr::Ref(reference) => match constant_named(layout, unit, reference) {
            Some(literal) => add_literal(literal, code),
            None => {
                add_ref(layout, unit, reference, code)?;
                code.push(Instr::Load)
            }
        },
        Expr::Unary(op, operand) => {
            add_expr(layout, unit, operand.get(), code)?;
            code.push(Instr::Unary(*op))
        }
        Expr::Binary(op, left, right) => {
            add_expr(layout, unit, left.get(), code)?;
            add_expr(layout, unit, right.get(), code)?;
            code.push(Instr::Binary(*op))
        }
        Expr::Paren(inner) => add_expr(layout, unit, inner.get(), code),
    }
}

/// Adds the code of what a reference stands for: it leaves an entity or the place of an element on the stack.
#[cycle(exprs)]
pub fn add_ref(
    layout: &Layout,
    unit: u32,
    reference: &Ref,
    code: &mut Instrs,
) -> Result<(), NoMemory>
    requires { length layout.now.entities ≤ 2 ^ 32 }
    ensures { OnOk result (code.new ≡ code.old ++ ref_code layout.now unit reference.now) }
{
    match layout.entities.number_of(unit, &reference.name) {
        None => Ok(()),
        Some(number) => add_place(
            layout,
            unit,
            number as u32,
            &reference.args,
            &reference.part,
            code,
        ),
    }
}

/// Adds the code of the place of an entity with such a list of subscripts. More subscripts, and substrings, have no meaning yet.
#[cycle(exprs)]
fn add_place(
    layout: &Layout,
    unit: u32,
    number: u32,
    args: &Option<Items<Expr>>,
    part: &Option<Boxed<Part>>,
    code: &mut Instrs,
) -> Result<(), NoMemory>
    requires { length layout.now.entities ≤ 2 ^ 32 }
    ensures { OnOk result (code.new ≡ code.old ++ place_code (Some number) (option_map (map (expr_code layout.now unit)) args.now) (option_map (λ p. tt) part.now)) }
{
    if part.is_some() {
        return Ok(());
    }
    match args {
        None => code.push(Instr::Entity(number)),
        Some(args) => match args.as_slice() {
            [] => Ok(()),
            [subscript] => {
                code.push(Instr::Entity(number))?;
                add_expr(layout, unit, subscript, code)?;
                code.push(Instr::Index(1))
            }
            [_, _, ..] => Ok(()),
        },
    }
}
