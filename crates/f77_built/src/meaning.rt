//! Which statements have a meaning.
ghost use Rattle.std.specs.Prelude.{◌≡◌, map};
ghost use Rattle.std.specs.List.{list_all};
ghost use Rattle.std.specs.Option.{option_map};
ghost use Rattle.f77_ast.specs.Entity.{entity_in};
ghost use Rattle.f77_layout.specs.Layout.{layout_of};
ghost use Rattle.f77_structure.specs.Arrays.{array_named, array_of_ref};
ghost use Rattle.f77_structure.specs.HasMeaning as spec;

use crate::entities::{names_kept, names_number, names_variable, names_vector, names_whole_vector};
use f77_ast::entities::Entities;
use f77_ast::expr::{Expr, Ref};
use f77_ast::name::Name;
use f77_ast::program::Unit;
use f77_ast::stmt::{Item, LoopControl, Stmt};
use f77_structure::operators::{is_arithmetic, is_sign};
use sqlite_items::Items;

/// Whether an expression has a meaning: numbers, references, arithmetic operators and parentheses.
#[cycle(meaning)]
fn expr_has_meaning(units: &[Unit], entities: &Entities, unit: u32, tree: &Expr) -> bool
    ensures { result ≡ spec.expr_has_meaning units.now (layout_of entities.now) unit tree.now }
{
    match tree {
        Expr::Int(_) => true,
        Expr::Truth(_) => false,
        Expr::Chars(_) => false,
        Expr::Ref(found) => ref_has_meaning(units, entities, unit, found),
        Expr::Unary(operator, operand) => {
            is_sign(*operator) && expr_has_meaning(units, entities, unit, operand.get())
        }
        Expr::Binary(operator, left, right) => {
            is_arithmetic(*operator)
                && expr_has_meaning(units, entities, unit, left.get())
                && expr_has_meaning(units, entities, unit, right.get())
        }
        Expr::Paren(inner) => expr_has_meaning(units, entities, unit, inner.get()),
    }
}

/// Whether a reference has one: no substring does.
#[cycle(meaning)]
fn ref_has_meaning(units: &[Unit], entities: &Entities, unit: u32, found: &Ref) -> bool
    ensures { result ≡ spec.ref_has_meaning units.now (layout_of entities.now) unit found.now }
{
    match &found.part {
        None => name_has_meaning(units, entities, unit, &found.name, &found.args),
        Some(_) => false,
    }
}

/// Whether a name has one with its subscripts: a variable or constant without, an array of one dimension with one.
#[cycle(meaning)]
fn name_has_meaning(
    units: &[Unit],
    entities: &Entities,
    unit: u32,
    name: &Name,
    args: &Option<Items<Expr>>,
) -> bool
    ensures { result ≡ spec.names_integer (entity_in (layout_of entities.now).entities unit name.now) (option_map (map (spec.expr_has_meaning units.now (layout_of entities.now) unit)) args.now) }
{
    match args {
        None => names_number(entities, unit, name),
        Some(subscripts) => match subscripts.as_slice() {
            [] => false,
            [subscript] => {
                names_vector(entities, unit, name)
                    && expr_has_meaning(units, entities, unit, subscript)
            }
            [_, _, ..] => false,
        },
    }
}

/// Whether the left side of an assignment has one: no constant does.
fn target_has_meaning(units: &[Unit], entities: &Entities, unit: u32, target: &Ref) -> bool
    ensures { result ≡ spec.target_has_meaning units.now (layout_of entities.now) unit target.now }
{
    ref_has_meaning(units, entities, unit, target) && names_kept(entities, unit, &target.name)
}

/// Whether a reference is an array's name alone.
fn ref_is_vector(entities: &Entities, unit: u32, found: &Ref) -> bool
    ensures { result ≡ spec.is_integer_vector (array_of_ref (layout_of entities.now) unit found.now) }
{
    match (&found.args, &found.part) {
        (None, None) => names_whole_vector(entities, unit, &found.name),
        (Some(_), _) => false,
        (None, Some(_)) => false,
    }
}

/// Whether an expression is an array's name alone.
fn expr_is_vector(entities: &Entities, unit: u32, tree: &Expr) -> bool
    ensures { result ≡ spec.is_integer_vector (array_named (layout_of entities.now) unit tree.now) }
{
    match tree {
        Expr::Int(_) => false,
        Expr::Truth(_) => false,
        Expr::Chars(_) => false,
        Expr::Ref(found) => ref_is_vector(entities, unit, found),
        Expr::Unary(_, _) => false,
        Expr::Binary(_, _, _) => false,
        Expr::Paren(_) => false,
    }
}

/// Whether an item of PRINT has one: an expression, or an array's name alone.
fn item_has_meaning(units: &[Unit], entities: &Entities, unit: u32, item: &Item) -> bool
    ensures { result ≡ spec.item_has_meaning units.now (layout_of entities.now) unit item.now }
{
    match item {
        Item::Plain(tree) => {
            expr_has_meaning(units, entities, unit, tree) || expr_is_vector(entities, unit, tree)
        }
        Item::Implied(_, _) => false,
    }
}

/// Whether the items of PRINT have one.
fn items_have_meaning(units: &[Unit], entities: &Entities, unit: u32, items: &[Item]) -> bool
    ensures { result ≡ list_all (spec.item_has_meaning units.now (layout_of entities.now) unit) items.now }
{
    items
        .iter()
        .all(|item| item_has_meaning(units, entities, unit, item))
}

/// Whether a parameter of a DO statement that may be left out has one.
fn increment_has_meaning(
    units: &[Unit],
    entities: &Entities,
    unit: u32,
    increment: &Option<Expr>,
) -> bool
    ensures { result ≡ spec.increment_has_meaning units.now (layout_of entities.now) unit increment.now }
{
    match increment {
        None => true,
        Some(tree) => expr_has_meaning(units, entities, unit, tree),
    }
}

/// Whether the control of a DO statement has one: its variable is an INTEGER variable.
fn control_has_meaning(
    units: &[Unit],
    entities: &Entities,
    unit: u32,
    control: &LoopControl,
) -> bool
    ensures { result ≡ spec.control_has_meaning units.now (layout_of entities.now) unit control.now }
{
    names_variable(entities, unit, &control.variable)
        && expr_has_meaning(units, entities, unit, &control.first)
        && expr_has_meaning(units, entities, unit, &control.last)
        && increment_has_meaning(units, entities, unit, &control.increment)
}

/// Whether a statement of a unit has one in the layout of the entities.
pub fn statement_has_meaning(units: &[Unit], entities: &Entities, unit: u32, stmt: &Stmt) -> bool
    ensures { result ≡ spec.statement_has_meaning units.now (layout_of entities.now) unit stmt.now }
{
    match stmt {
        Stmt::Assign { target, value } => {
            target_has_meaning(units, entities, unit, target)
                && expr_has_meaning(units, entities, unit, value)
        }
        Stmt::Do { control, .. } => control_has_meaning(units, entities, unit, control),
        Stmt::Print(items) => items_have_meaning(units, entities, unit, items.as_slice()),
        Stmt::Continue => true,
        Stmt::End => true,
        Stmt::Program(_) => true,
        Stmt::Declare { .. } => true,
        Stmt::Dimension(_) => true,
        Stmt::Common(_) => true,
        Stmt::Equivalence(_) => true,
        Stmt::Parameter(_) => true,
        Stmt::Implicit(_) => true,
        Stmt::Save(_) => true,
        Stmt::Return => false,
        Stmt::Else => false,
        Stmt::EndIf => false,
        Stmt::Stop(_) => false,
        Stmt::Goto(_) => false,
        Stmt::ComputedGoto { .. } => false,
        Stmt::ArithmeticIf { .. } => false,
        Stmt::LogicalIf { .. } => false,
        Stmt::BlockIf(_) => false,
        Stmt::ElseIf(_) => false,
        Stmt::Call { .. } => false,
        Stmt::Read(_) => false,
        Stmt::Subroutine { .. } => false,
        Stmt::Function { .. } => false,
        Stmt::Init(_) => false,
    }
}
