//! DO ranges: their terminal statements, and how they nest (ANSI X3.9-1978, sections 11.10 and 11.10.1).
ghost use Rattle.std.specs.Prelude.{◌≡◌, ◌<◌, ◌-◌, ◌^◌, List, length, slice_get, ◌||◌, Some};
ghost use Rattle.f77_ast.specs.declared.program.Listed.{Listed};
ghost use Rattle.f77_ast.specs.Refusal.{first_of};
ghost use Rattle.f77_structure.specs.Statements.{terminal_label};
ghost use Rattle.f77_shape.specs.Breaks.{broken_by};
ghost use Rattle.f77_structure.specs.Labels.{target_in};
ghost use Rattle.f77_shape.specs.UnitTables.{AreUnitTables};
ghost use Rattle.f77_shape.specs.Ranges.{may_end, crosses_a_range, leaves_a_block, breaks_to, breaks_with, breaks_range};

use crate::breaks::refused_if;
use crate::unit_tables::UnitTables;
use f77_ast::program::Listed;
use f77_ast::refusal::{Refusal, sooner};
use f77_ast::rule::Rule;
use f77_ast::stmt::{Label, Stmt};
use f77_structure::statements::{may_end_range, terminal_label};

/// Whether there is a statement at a place, and it may be a terminal statement.
fn may_end(unit: &[Listed], place: usize) -> bool
    ensures { result ≡ may_end (slice_get unit.now place) }
{
    match unit.get(place) {
        None => false,
        Some(listed) => may_end_range(&listed.stmt),
    }
}

/// Whether the range of a DO statement crosses one of the ranges of its unit: one that holds the DO statement and not its
/// terminal statement, or one that opens after the DO statement and holds the place after its terminal statement.
fn crosses_a_range(places: &UnitTables, place: usize, target: usize) -> bool
    requires behind { place < target }
    requires room { target < 2 ^ 64 - 1 }
    ensures { (unit : List Listed) → AreUnitTables unit places.now → result ≡ crosses_a_range unit (record { opens = place; last = target }) }
{
    places.ranges.is_entered(target, place) || places.ranges.is_entered(place + 1, target + 1)
}

/// Whether one of the blocks of a unit holds only one of a DO statement and its terminal statement.
fn leaves_a_block(places: &UnitTables, place: usize, target: usize) -> bool
    ensures { (unit : List Listed) → AreUnitTables unit places.now → result ≡ leaves_a_block unit (record { opens = place; last = target }) }
{
    places.blocks.is_entered(target, place) || places.blocks.is_entered(place, target)
}

/// Whether the range of a DO statement to a terminal statement after it breaks the rules.
fn breaks_behind(unit: &[Listed], places: &UnitTables, place: usize, target: usize) -> bool
    requires places { AreUnitTables unit.now places.now }
    requires behind { place < target }
    requires room { target < length unit.now }
    ensures { result ≡ (crosses_a_range unit.now (record { opens = place; last = target }) || leaves_a_block unit.now (record { opens = place; last = target })) }
{
    crosses_a_range(places, place, target) || leaves_a_block(places, place, target)
}

/// Whether the range of a DO statement to this place breaks the rules.
fn breaks_to(unit: &[Listed], places: &UnitTables, place: usize, target: usize) -> bool
    requires { AreUnitTables unit.now places.now }
    ensures { result ≡ breaks_to unit.now place (Some target) }
{
    if place < target && target < unit.len() && may_end(unit, target) {
        breaks_behind(unit, places, place, target)
    } else {
        true
    }
}

/// The place of the first executable statement of a unit with a label.
fn target_in(unit: &[Listed], places: &UnitTables, label: Label) -> Option<usize>
    requires { AreUnitTables unit.now places.now }
    ensures { result ≡ target_in label unit.now }
{
    places.targets.find(label)
}

/// Whether a DO statement at a place that names this label breaks the rules.
fn breaks_by(unit: &[Listed], places: &UnitTables, place: usize, label: Label) -> bool
    requires { AreUnitTables unit.now places.now }
    ensures { result ≡ breaks_to unit.now place (target_in label unit.now) }
{
    match target_in(unit, places, label) {
        None => true,
        Some(target) => breaks_to(unit, places, place, target),
    }
}

/// Whether a statement is a DO statement whose terminal statement or nesting breaks the rules.
fn breaks_range(unit: &[Listed], places: &UnitTables, place: usize, stmt: &Stmt) -> bool
    requires { AreUnitTables unit.now places.now }
    ensures { result ≡ breaks_with unit.now place (terminal_label stmt.now) }
{
    match terminal_label(stmt) {
        None => false,
        Some(label) => breaks_by(unit, places, place, label),
    }
}

/// DoNesting: the first DO statement of a unit whose terminal statement or nesting breaks the rules.
pub fn bad_range(unit: &[Listed], places: &UnitTables) -> Option<Refusal>
    requires { AreUnitTables unit.now places.now }
    ensures { result ≡ first_of (broken_by Rule.DoNesting (breaks_range unit.now) 0 unit.now) }
{
    let mut first = None;
    for (place, listed) in unit.iter().enumerate() {
        let breaks = breaks_range(unit, places, place, &listed.stmt);
        first = sooner(first, refused_if(breaks, listed, Rule::DoNesting));
    }
    first
}
