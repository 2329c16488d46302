//! Labels, the control of loops, and the items of PRINT and READ.

use crate::exprs::show_expr;
use crate::lists::{show_comma, show_number};
use f77_ast::stmt::{Item, Label, LoopControl};
use hyb_base::bytes::Bytes;
use hyb_base::no_memory::NoMemory;
use sqlite_items::Items;

/// Shows labels: `10,20`.
pub fn show_labels(labels: &[Label], into: &mut Bytes) -> Result<(), NoMemory> {
    for (place, label) in labels.iter().enumerate() {
        show_comma(place, into)?;
        show_number(*label, into)?;
    }
    Ok(())
}

/// Shows the control of a DO or an implied DO: `I 1 N` or, with an increment, `I 1 N 2`.
pub fn show_control(control: &LoopControl, into: &mut Bytes) -> Result<(), NoMemory> {
    into.push_slice(control.variable.as_slice())?;
    into.push(b' ')?;
    show_expr(&control.first, into)?;
    into.push(b' ')?;
    show_expr(&control.last, into)?;
    if let Some(increment) = &control.increment {
        into.push(b' ')?;
        show_expr(increment, into)?;
    }
    Ok(())
}

/// Shows an item: an expression, or an implied DO as `(A[I],B|I 1 3)`.
#[cycle(items)]
fn show_item(item: &Item, into: &mut Bytes) -> Result<(), NoMemory> {
    match item {
        Item::Plain(value) => show_expr(value, into),
        Item::Implied(items, control) => {
            into.push(b'(')?;
            show_items(items, into)?;
            into.push(b'|')?;
            show_control(control, into)?;
            into.push(b')')
        }
    }
}

/// Shows items: `A,(B[I]|I 1 3)`.
#[cycle(items)]
pub fn show_items(items: &Items<Item>, into: &mut Bytes) -> Result<(), NoMemory> {
    for (place, item) in items.as_slice().iter().enumerate() {
        show_comma(place, into)?;
        show_item(item, into)?;
    }
    Ok(())
}
