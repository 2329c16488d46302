//! Items of READ and PRINT, and the control of a DO or implied DO (ANSI X3.9-1978, sections 11.10 and 12.8.2).
ghost use Rattle.std.specs.Prelude.{◌≡◌};
ghost use Rattle.f77_kinds.specs.Breaches.{any_of};
ghost use Rattle.f77_kinds.specs.Statements as spec;
ghost use Rattle.f77_uses.specs.Tables.{told_by};

use crate::breach::{Breach, clash_if, either, no_breach};
use crate::forms::{is_assumed_size, is_readable, is_variable};
use crate::found::{Found, expr_found, name_found};
use crate::kinds::fits;
use crate::parts::Judged;
use f77_ast::expr::Kind;
use f77_ast::stmt::{Item, LoopControl};
use f77_uses::tables::Tables;

/// Which way items go.
#[derive(Clone, Copy, Debug, PartialEq, Eq)]
pub enum Transfer {
    /// READ.
    Input,
    /// PRINT.
    Output,
}

/// Whether it is an INTEGER variable.
fn is_loop_variable(found: Found) -> bool
    ensures { result ≡ spec.is_loop_variable found }
{
    is_variable(found.form) && fits(Kind::Integer, found.kind)
}

/// What is broken in the control of a DO or implied DO.
pub fn control_breach(tables: &Tables, control: &LoopControl) -> Breach
    ensures { result ≡ spec.control_breach (told_by tables.now) control.now }
{
    let variable = name_found(tables, &control.variable);
    let values = either(
        control.last.breach(tables),
        control.increment.breach(tables),
    );
    either(
        clash_if(!is_loop_variable(variable)),
        either(control.first.breach(tables), values),
    )
}

/// Whether it is an item of READ: an INTEGER variable, element or array.
fn is_input(found: Found) -> bool
    ensures { result ≡ spec.is_input found }
{
    is_readable(found.form) && fits(Kind::Integer, found.kind)
}

/// What is broken in an item that is no implied DO.
fn plain_breach(way: Transfer, found: Found) -> Breach
    ensures { result ≡ spec.plain_breach way found }
{
    match way {
        Transfer::Input => either(found.breach, clash_if(!is_input(found))),
        Transfer::Output => either(found.breach, clash_if(is_assumed_size(found.form))),
    }
}

/// What is broken in an item.
fn item_breach(tables: &Tables, way: Transfer, item: &Item) -> Breach
    ensures { result ≡ spec.item_breach (told_by tables.now) way item.now }
{
    match item {
        Item::Plain(expr) => plain_breach(way, expr_found(tables, expr)),
        Item::Implied(items, control) => {
            let list = items.as_slice();
            let mut breach = no_breach();
            for inner in list {
                breach = either(breach, item_breach(tables, way, inner));
            }
            either(breach, control_breach(tables, control))
        }
    }
}

/// What is broken in items.
pub fn items_breach(tables: &Tables, way: Transfer, items: &[Item]) -> Breach
    ensures { result ≡ any_of (spec.item_breach (told_by tables.now) way) items.now }
{
    let mut breach = no_breach();
    for item in items {
        breach = either(breach, item_breach(tables, way, item));
    }
    breach
}
