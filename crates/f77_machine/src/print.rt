//! The items of PRINT (ANSI X3.9-1978, section 12.8).
ghost use Rattle.std.specs.Prelude.{◌≡◌, ◌+◌, ◌-◌, ◌<◌, ◌≤◌, ◌^◌, ℕ, List, [], IsTrue, IfErr, Some, length};
ghost use Rattle.std.specs.List.{list_all};
ghost use Rattle.hyb_base.specs.Decimal.{decimal_of};
ghost use Rattle.f77_ast.specs.declared.fault.Fault.TheVariants.{LineLimit};
ghost use Rattle.f77_structure.specs.HasMeaning.{expr_has_meaning, is_integer_vector, item_has_meaning};
ghost use Rattle.f77_structure.specs.Storage.{IsStorage, elements_of, start_of, storage_units_of};
ghost use Rattle.f77_meaning.specs.Demand.{Setting, demand_of};
ghost use Rattle.f77_meaning.specs.Print.{after_elements, after_item, after_items, after_value, next_cell, next_item, with_text};
ghost use Rattle.f77_meaning.specs.Print as meaning;
ghost use Rattle.f77_meaning.specs.Process.{Frame};
ghost use Rattle.f77_io.specs.Line.{text_of};
ghost use Rattle.f77_machine.specs.Print.{as_printing, as_printed, go_on, line_by, AsksWithin, BeginsWith, Follows, IsNext};
ghost use Rattle.f77_machine.specs.Reads.{item_reads, most_reads, reads_in};
ghost use Rattle.f77_machine.specs.Setting.{setting_in};

use crate::array::{array_named, storage_units};
use crate::demand::demand;
use crate::evaluated::Evaluated;
use f77_ast::expr::Expr;
use f77_ast::fault::Fault;
use f77_ast::program::{Entity, Program};
use f77_ast::stmt::Item;
use f77_io::line::Line;
use f77_structure::storage::stored_at;
use hyb_base::ops::RedOp;

/// How far a PRINT is.
#[derive(Clone, Copy, Debug)]
pub struct Printing<'a> {
    /// How many of its items are done.
    pub items: usize,
    /// How many elements of the next item are done, where that is an array.
    pub cells: u64,
    /// The answers to the reads of that item.
    pub answers: &'a [i64],
}

/// Where a PRINT comes to.
#[derive(Clone, Copy, Debug)]
pub enum Printed<'a> {
    /// It goes on from here; after its last item its line is whole.
    GoesOn(Printing<'a>),
    /// It reads an address, with the operator of an accumulation where it is the last read of one.
    Asks(u32, Option<RedOp>, Printing<'a>),
    /// It meets a fault.
    Stops(Fault),
}

impl<'a> Printing<'a> {
    /// With its next item done: what the item read is forgotten.
    fn next_item(self) -> Printing<'a>
        requires { self.items + 1 < 2 ^ 64 }
        ensures next { (frame : Frame) (line old : List ℕ) → as_printing frame result line ≡ next_item (as_printing frame self.entry old) line }
        ensures is_next { IsNext self.entry result }
    {
        Printing {
            items: self.items + 1,
            cells: 0,
            answers: &self.answers[..0],
        }
    }

    /// With the next element of its array done.
    fn next_cell(self) -> Printing<'a>
        requires { self.cells + 1 < 2 ^ 64 }
        ensures next { (frame : Frame) (line old : List ℕ) → as_printing frame result line ≡ next_cell (as_printing frame self.entry old) line }
        ensures answers { result.answers.now ≡ [] }
        ensures items { result.items ≡ self.entry.items }
        ensures cells { result.cells ≡ self.entry.cells + 1 }
    {
        Printing {
            items: self.items,
            cells: self.cells + 1,
            answers: &self.answers[..0],
        }
    }
}

/// Adds a blank and a number to the line; `LineLimit`, and a line as before, where it would pass its limit.
fn push(number: i64, line: &mut Line) -> Result<(), Fault>
    ensures added { line_by result (text_of line.new) ≡ with_text (text_of line.old) (decimal_of number) }
    ensures fault { IfErr result (λ fault. fault ≡ LineLimit) }
    ensures begins { BeginsWith (text_of line.new) (text_of line.old) }
{
    line.push_int(number)
}

/// Adds the value of an expression, once it is known.
fn print_value<'a>(
    program: &Program,
    unit: u32,
    expr: &Expr,
    at: Printing<'a>,
    line: &mut Line,
) -> Printed<'a>
    requires storage { IsStorage program.now.layout }
    requires meaning { IsTrue (expr_has_meaning program.now.units program.now.layout unit expr.now) }
    requires few { at.items + 1 < 2 ^ 64 }
    requires cells { at.cells < 2 ^ 32 }
    ensures value { (frame : Frame) (go : meaning.Printing → meaning.Printed) → go_on frame result (text_of line.new) go
        ≡ after_value (demand_of (setting_in program.now unit) expr.now at.entry.answers.now) (as_printing frame at.entry (text_of line.old)) (λ text. go (next_item (as_printing frame at.entry (text_of line.old)) text)) }
    ensures asks { AsksWithin (length program.now.layout.first) (reads_in expr.now) at.entry.answers.now result }
    ensures follows { Follows at.entry result }
    ensures begins { BeginsWith (text_of line.new) (text_of line.old) }
{
    match demand(program, unit, expr, at.answers) {
        Evaluated::Gives(number, _rest) => match push(number, line) {
            Ok(()) => Printed::GoesOn(at.next_item()),
            Err(fault) => Printed::Stops(fault),
        },
        Evaluated::Wants(address, by) => Printed::Asks(address, by, at),
        Evaluated::Fails(fault) => Printed::Stops(fault),
    }
}

/// The first address of an array that is stored.
fn first_address(array: &Entity) -> u32
    requires meaning { IsTrue (is_integer_vector (Some array.now)) }
    ensures { result ≡ start_of array.now }
{
    match stored_at(&array.place) {
        Some(first) => first,
        None => unreachable!(),
    }
}

/// Reads the next element of an array; where there is none, the item is done.
fn ask_element<'a>(array: &Entity, at: Printing<'a>) -> Printed<'a>
    requires within { start_of array.now + storage_units_of array.now ≤ 2 ^ 32 }
    requires meaning { IsTrue (is_integer_vector (Some array.now)) }
    requires few { at.items + 1 < 2 ^ 64 }
    requires unread { at.answers.now ≡ [] }
    ensures value { (s : Setting) (frame : Frame) (go : meaning.Printing → meaning.Printed) (line : List ℕ) → go_on frame result line go
        ≡ after_elements s array.now (elements_of array.now - at.entry.cells) (as_printing frame at.entry line) go }
    ensures asks { AsksWithin (start_of array.now + storage_units_of array.now) 1 at.entry.answers.now result }
    ensures follows { Follows at.entry result }
{
    if at.cells < storage_units(array) {
        Printed::Asks(first_address(array) + at.cells as u32, None, at)
    } else {
        Printed::GoesOn(at.next_item())
    }
}

/// Adds the element of an array that was read, where one was, and asks for the next one: its elements are items in the
/// order of their addresses (section 5.2.5).
fn print_element<'a>(array: &Entity, at: Printing<'a>, line: &mut Line) -> Printed<'a>
    requires within { start_of array.now + storage_units_of array.now ≤ 2 ^ 32 }
    requires meaning { IsTrue (is_integer_vector (Some array.now)) }
    requires few { at.items + 1 < 2 ^ 64 }
    requires cells { at.cells < 2 ^ 32 }
    ensures value { (s : Setting) (frame : Frame) (go : meaning.Printing → meaning.Printed) → go_on frame result (text_of line.new) go
        ≡ after_elements s array.now (elements_of array.now - at.entry.cells) (as_printing frame at.entry (text_of line.old)) go }
    ensures asks { AsksWithin (start_of array.now + storage_units_of array.now) 1 at.entry.answers.now result }
    ensures follows { Follows at.entry result }
    ensures begins { BeginsWith (text_of line.new) (text_of line.old) }
{
    match at.answers.split_first() {
        None => ask_element(array, at),
        Some((number, _rest)) => {
            if at.cells >= storage_units(array) {
                return Printed::GoesOn(at.next_item());
            }
            match push(*number, line) {
                Ok(()) => ask_element(array, at.next_cell()),
                Err(fault) => Printed::Stops(fault),
            }
        }
    }
}

/// Goes on with one item: an array, or another expression.
fn print_item<'a>(
    program: &Program,
    unit: u32,
    item: &Item,
    at: Printing<'a>,
    line: &mut Line,
) -> Printed<'a>
    requires storage { IsStorage program.now.layout }
    requires meaning { IsTrue (item_has_meaning program.now.units program.now.layout unit item.now) }
    requires few { at.items + 1 < 2 ^ 64 }
    requires cells { at.cells < 2 ^ 32 }
    ensures value { (frame : Frame) (go : meaning.Printing → meaning.Printed) → go_on frame result (text_of line.new) go
        ≡ after_item (setting_in program.now unit) item.now (as_printing frame at.entry (text_of line.old)) go }
    ensures asks { AsksWithin (length program.now.layout.first) (item_reads program.now.layout unit item.now) at.entry.answers.now result }
    ensures follows { Follows at.entry result }
    ensures begins { BeginsWith (text_of line.new) (text_of line.old) }
{
    match item {
        Item::Plain(expr) => match array_named(&program.layout, unit, expr) {
            Some(array) => print_element(array, at, line),
            None => print_value(program, unit, expr, at, line),
        },
        Item::Implied(_, _) => unreachable!(),
    }
}

/// Goes on with items, from left to right.
pub fn print_items<'a>(
    program: &Program,
    unit: u32,
    items: &[Item],
    from: Printing<'a>,
    line: &mut Line,
) -> Printed<'a>
    requires storage { IsStorage program.now.layout }
    requires meaning { IsTrue (list_all (item_has_meaning program.now.units program.now.layout unit) items.now) }
    requires few { from.items + length items.now < 2 ^ 64 }
    requires cells { from.cells < 2 ^ 32 }
    ensures value { (frame : Frame) → as_printed frame result (text_of line.new) ≡ after_items (setting_in program.now unit) items.now (as_printing frame from.entry (text_of line.old)) }
    ensures asks { AsksWithin (length program.now.layout.first) (most_reads program.now.layout unit items.now) from.entry.answers.now result }
    ensures begins { BeginsWith (text_of line.new) (text_of line.old) }
{
    let mut at = from;
    for item in items {
        match print_item(program, unit, item, at, line) {
            Printed::GoesOn(next) => at = next,
            Printed::Asks(address, by, here) => return Printed::Asks(address, by, here),
            Printed::Stops(fault) => return Printed::Stops(fault),
        }
    }
    Printed::GoesOn(at)
}
