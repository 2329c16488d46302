//! How many answers the reads of items and statements need at most.
ghost use Rattle.std.specs.Prelude.{◌≡◌, ◌≤◌, IfSome};
ghost use Rattle.f77_structure.specs.Storage.{IsStorage};
ghost use Rattle.f77_machine.specs.Reads.{reads_in, subscript_reads, item_reads, most_reads, increment_reads, control_reads, statement_reads, AllHaveRoom, HasRoom};

use crate::array::array_named;
use f77_ast::expr::{Expr, Ref};
use f77_ast::program::{Layout, Listing, Program};
use f77_ast::stmt::{Item, LoopControl, Stmt};

/// How many addresses an expression reads at most: none where that passes 64 bits.
#[cycle(reads)]
fn reads_in(expr: &Expr) -> Option<usize>
    ensures { IfSome result (λ n. n ≡ reads_in expr.now) }
{
    match expr {
        Expr::Int(_) => Some(0),
        Expr::Truth(_) => Some(0),
        Expr::Chars(_) => Some(0),
        Expr::Ref(reference) => subscript_reads(reference)?.checked_add(1),
        Expr::Unary(_, operand) => reads_in(operand.get()),
        Expr::Binary(_, left, right) => reads_in(left.get())?.checked_add(reads_in(right.get())?),
        Expr::Paren(inner) => reads_in(inner.get()),
    }
}

/// How many addresses the subscripts of a reference read at most.
#[cycle(reads)]
fn subscript_reads(reference: &Ref) -> Option<usize>
    ensures { IfSome result (λ n. n ≡ subscript_reads reference.now) }
{
    match &reference.args {
        None => Some(0),
        Some(args) => match args.as_slice() {
            [] => Some(0),
            [subscript] => reads_in(subscript),
            [_, _, ..] => Some(0),
        },
    }
}

/// How many answers an item needs: an array's elements are items of their own.
fn item_reads(layout: &Layout, unit: u32, item: &Item) -> Option<usize>
    requires storage { IsStorage layout.now }
    ensures { IfSome result (λ n. n ≡ item_reads layout.now unit item.now) }
{
    match item {
        Item::Plain(expr) => match array_named(layout, unit, expr) {
            Some(_) => Some(1),
            None => reads_in(expr),
        },
        Item::Implied(_, _) => Some(0),
    }
}

/// The most answers that one of some items needs.
fn most_reads(layout: &Layout, unit: u32, items: &[Item]) -> Option<usize>
    requires storage { IsStorage layout.now }
    ensures { IfSome result (λ n. n ≡ most_reads layout.now unit items.now) }
{
    let mut most: usize = 0;
    for item in items {
        most = most.max(item_reads(layout, unit, item)?);
    }
    Some(most)
}

/// How many addresses a parameter of a DO statement that may be left out reads at most.
fn increment_reads(increment: &Option<Expr>) -> Option<usize>
    ensures { IfSome result (λ n. n ≡ increment_reads increment.now) }
{
    match increment {
        None => Some(0),
        Some(increment) => reads_in(increment),
    }
}

/// How many addresses the control of a DO statement reads at most.
fn control_reads(control: &LoopControl) -> Option<usize>
    ensures { IfSome result (λ n. n ≡ control_reads control.now) }
{
    let after_first = reads_in(&control.last)?.checked_add(increment_reads(&control.increment)?)?;
    reads_in(&control.first)?.checked_add(after_first)
}

/// How many answers a statement of a unit needs.
fn statement_reads(layout: &Layout, unit: u32, stmt: &Stmt) -> Option<usize>
    requires storage { IsStorage layout.now }
    ensures { IfSome result (λ n. n ≡ statement_reads layout.now unit stmt.now) }
{
    match stmt {
        Stmt::Assign { target, value } => subscript_reads(target)?.checked_add(reads_in(value)?),
        Stmt::Do { control, .. } => control_reads(control),
        Stmt::Continue => Some(0),
        Stmt::Return => Some(0),
        Stmt::Else => Some(0),
        Stmt::EndIf => Some(0),
        Stmt::End => Some(0),
        Stmt::Stop(_) => Some(0),
        Stmt::Goto(_) => Some(0),
        Stmt::ComputedGoto { .. } => Some(0),
        Stmt::ArithmeticIf { .. } => Some(0),
        Stmt::LogicalIf { .. } => Some(0),
        Stmt::BlockIf(_) => Some(0),
        Stmt::ElseIf(_) => Some(0),
        Stmt::Call { .. } => Some(0),
        Stmt::Print(items) => most_reads(layout, unit, items.as_slice()),
        Stmt::Read(_) => Some(0),
        Stmt::Program(_) => Some(0),
        Stmt::Subroutine { .. } => Some(0),
        Stmt::Function { .. } => Some(0),
        Stmt::Declare { .. } => Some(0),
        Stmt::Dimension(_) => Some(0),
        Stmt::Common(_) => Some(0),
        Stmt::Equivalence(_) => Some(0),
        Stmt::Parameter(_) => Some(0),
        Stmt::Implicit(_) => Some(0),
        Stmt::Save(_) => Some(0),
        Stmt::Init(_) => Some(0),
    }
}

/// The most answers that one of some statements of a unit needs.
fn most_in(layout: &Layout, unit: u32, listing: &Listing) -> Option<usize>
    requires storage { IsStorage layout.now }
    ensures { IfSome result (λ room. AllHaveRoom layout.now unit listing.now room) }
{
    let mut most = 0;
    for listed in listing.as_slice() {
        most = most.max(statement_reads(layout, unit, &listed.stmt)?);
    }
    Some(most)
}

/// Room for the answers that any statement of a program needs: none where that passes 64 bits.
pub fn room_for(program: &Program) -> Option<usize>
    requires storage { IsStorage program.now.layout }
    ensures { IfSome result (HasRoom program.now) }
{
    let mut most = 0;
    let mut number: u32 = 0;
    for unit in program.units.as_slice() {
        most = most.max(most_in(&program.layout, number, &unit.listing)?);
        number = number.checked_add(1)?;
    }
    Some(most)
}
