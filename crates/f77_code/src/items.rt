//! The code of the items of PRINT (ANSI X3.9-1978, section 12.8.2).
ghost use Rattle.std.specs.Prelude.{◌≡◌, ◌≤◌, ◌^◌, ◌++◌, length, OnOk, Some};
ghost use Rattle.std.specs.Option.{is_some};
ghost use Rattle.f77_ast.specs.declared.expr.Expr.{out-Expr};
ghost use Rattle.f77_structure.specs.Arrays.{array_named, array_of_ref, if_array};
ghost use Rattle.f77_code.specs.Statements.{item_code, items_code, layer_place, plain_code};

use crate::exprs::{add_expr, add_ref};
use f77_ast::code::{Instr, Instrs};
use f77_ast::expr::{Expr, Ref};
use f77_ast::program::{Entity, Layout};
use f77_ast::stmt::Item;
use f77_structure::storage::vector_span;
use hyb_base::no_memory::NoMemory;

/// Adds the code of some items.
pub fn add_items(
    layout: &Layout,
    unit: u32,
    items: &[Item],
    code: &mut Instrs,
) -> Result<(), NoMemory>
    requires { length layout.now.entities ≤ 2 ^ 32 }
    ensures { OnOk result (code.new ≡ code.old ++ items_code layout.now unit items.now) }
{
    for item in items {
        add_item(layout, unit, item, code)?;
    }
    Ok(())
}

/// Adds the code of an item: the elements of an array, or a value. An implied DO has no meaning yet.
fn add_item(layout: &Layout, unit: u32, item: &Item, code: &mut Instrs) -> Result<(), NoMemory>
    requires { length layout.now.entities ≤ 2 ^ 32 }
    ensures { OnOk result (code.new ≡ code.old ++ item_code layout.now unit item.now) }
{
    match item {
        Item::Plain(expr) => add_plain(layout, unit, expr, code),
        Item::Implied(_, _) => Ok(()),
    }
}

/// Adds the code of an expression that is an item.
fn add_plain(layout: &Layout, unit: u32, expr: &Expr, code: &mut Instrs) -> Result<(), NoMemory>
    requires { length layout.now.entities ≤ 2 ^ 32 }
    ensures { OnOk result (code.new ≡ code.old ++ plain_code layout.now unit expr.now) }
{
    if is_array(layout, unit, expr) {
        add_name(layout, unit, expr, code)?;
        code.push(Instr::EmitArray)
    } else {
        add_expr(layout, unit, expr, code)?;
        code.push(Instr::Emit)
    }
}

/// Adds the code of the place of an expression that is a reference.
fn add_name(layout: &Layout, unit: u32, expr: &Expr, code: &mut Instrs) -> Result<(), NoMemory>
    requires { length layout.now.entities ≤ 2 ^ 32 }
    ensures { OnOk result (code.new ≡ code.old ++ layer_place layout.now unit (out-Expr expr.now)) }
{
    match expr {
        Expr::Int(_) => Ok(()),
        Expr::Truth(_) => Ok(()),
        Expr::Chars(_) => Ok(()),
        Expr::Ref(reference) => add_ref(layout, unit, reference, code),
        Expr::Unary(_, _) => Ok(()),
        Expr::Binary(_, _, _) => Ok(()),
        Expr::Paren(_) => Ok(()),
    }
}

/// Whether an expression names an array of its unit as a whole: its name is alone.
fn is_array(layout: &Layout, unit: u32, expr: &Expr) -> bool
    ensures { result ≡ is_some (array_named layout.now unit expr.now) }
{
    match expr {
        Expr::Int(_) => false,
        Expr::Truth(_) => false,
        Expr::Chars(_) => false,
        Expr::Ref(reference) => is_array_ref(layout, unit, reference),
        Expr::Unary(_, _) => false,
        Expr::Binary(_, _, _) => false,
        Expr::Paren(_) => false,
    }
}

/// Whether a reference names an array as a whole: neither subscripts nor a substring follow the name.
fn is_array_ref(layout: &Layout, unit: u32, reference: &Ref) -> bool
    ensures { result ≡ is_some (array_of_ref layout.now unit reference.now) }
{
    if reference.args.is_some() || reference.part.is_some() {
        return false;
    }
    match layout.entities.find(unit, &reference.name) {
        None => false,
        Some(found) => is_vector(found),
    }
}

/// Whether an entity is an array of one dimension.
fn is_vector(found: &Entity) -> bool
    ensures { result ≡ is_some (if_array (Some found.now)) }
{
    vector_span(found.bounds.as_slice()).is_some()
}
