//! The entity of a name (ANSI X3.9-1978, sections 2.5 to 2.8, 4.1.2, 5.1.1 and 8.4.2).
ghost use Rattle.std.specs.Prelude.{◌≡◌, map, IfOk};
ghost use Rattle.std.specs.Option.{option_map};
ghost use Rattle.f77_leaves.specs.Declarations.{unknown};
ghost use Rattle.f77_constants.specs.Values.{meant};
ghost use Rattle.f77_due.specs.Starts.{facts_in};
ghost use Rattle.f77_names.specs.Entities as spec;

use f77_ast::expr::{Expr, Kind};
use f77_ast::name::Name;
use f77_ast::program::{Bounds, Entity, Place};
use f77_ast::specification::Bound;
use f77_constants::evaluate::{value_of_expr, value_of_name};
use f77_constants::lengths::name_length;
use f77_constants::value::Value;
use f77_due::unit_facts::UnitTables;
use f77_leaves::declarations::Known;
use f77_trees::copy::copy_expr;
use f77_uses::copies::copy_bounds;
use hyb_base::no_memory::NoMemory;
use std::alloc::Global;

/// The kind of a name; one without a type, which is refused, is shown as INTEGER.
fn kind_or_integer(kind: Option<Kind>) -> Kind
    ensures { result ≡ spec.kind_or_integer kind }
{
    match kind {
        None => Kind::Integer,
        Some(kind) => kind,
    }
}

/// The length of an entity in storage units, by its kind.
fn length_by_kind(kind: Kind, len: Option<u32>) -> u32
    ensures { result ≡ spec.length_by_kind kind len }
{
    match kind {
        Kind::Integer => 1,
        Kind::Logical => 1,
        Kind::Character => len.unwrap_or(0),
    }
}

/// An expression as the number that it is; one that is none as it stands.
fn settled(alloc: Global, unit: &UnitTables, expr: &Expr) -> Result<Expr, NoMemory>
    ensures { IfOk result (λ made. made ≡ spec.settled (facts_in unit.now) expr.now) }
{
    match value_of_expr(alloc, expr, &unit.values)? {
        None => copy_expr(alloc, expr),
        Some(Value::Integer(number)) => Ok(Expr::Int(number)),
        Some(Value::Truth(_)) => copy_expr(alloc, expr),
        Some(Value::Chars(_)) => copy_expr(alloc, expr),
    }
}

/// A lower bound: 1 where it is left out.
fn settled_lower(alloc: Global, unit: &UnitTables, lower: &Option<Expr>) -> Result<Expr, NoMemory>
    ensures { IfOk result (λ made. made ≡ spec.settled_lower (facts_in unit.now) lower.now) }
{
    match lower {
        None => Ok(Expr::Int(1)),
        Some(expr) => settled(alloc, unit, expr),
    }
}

/// An upper bound.
fn settled_upper(
    alloc: Global,
    unit: &UnitTables,
    upper: &Option<Expr>,
) -> Result<Option<Expr>, NoMemory>
    ensures { IfOk result (λ made. made ≡ spec.settled_upper (facts_in unit.now) upper.now) }
{
    match upper {
        None => Ok(None),
        Some(expr) => Ok(Some(settled(alloc, unit, expr)?)),
    }
}

/// A dimension of what is no dummy argument.
fn settled_bound(alloc: Global, unit: &UnitTables, bound: &Bound) -> Result<Bound, NoMemory>
    ensures { IfOk result (λ made. made ≡ spec.settled_bound (facts_in unit.now) bound.now) }
{
    let low = settled_lower(alloc, unit, &bound.low)?;
    let high = settled_upper(alloc, unit, &bound.high)?;
    Ok(Bound {
        low: Some(low),
        high,
    })
}

/// The dimensions of what is no dummy argument.
fn settled_bounds(alloc: Global, unit: &UnitTables, bounds: &[Bound]) -> Result<Bounds, NoMemory>
    ensures { IfOk result (λ made. made ≡ map (spec.settled_bound (facts_in unit.now)) bounds.now) }
{
    let mut made = Bounds::new(alloc);
    for bound in bounds {
        made.push(settled_bound(alloc, unit, bound)?)?;
    }
    Ok(made)
}

/// The dimensions of an entity: those of a dummy argument as they are declared.
fn bounds_as(
    alloc: Global,
    unit: &UnitTables,
    dummy: bool,
    bounds: &[Bound],
) -> Result<Bounds, NoMemory>
    ensures { IfOk result (λ made. made ≡ spec.bounds_as (facts_in unit.now) dummy bounds.now) }
{
    if dummy {
        copy_bounds(alloc, bounds)
    } else {
        settled_bounds(alloc, unit, bounds)
    }
}

/// The dimensions of an entity, where it has some.
fn bounds_by(
    alloc: Global,
    unit: &UnitTables,
    dummy: bool,
    bounds: &Option<Bounds>,
) -> Result<Bounds, NoMemory>
    ensures { IfOk result (λ made. made ≡ spec.bounds_by (facts_in unit.now) dummy bounds.now) }
{
    match bounds {
        None => Ok(Bounds::new(alloc)),
        Some(bounds) => bounds_as(alloc, unit, dummy, bounds.as_slice()),
    }
}

/// A value as a literal.
fn literal_of(value: Value) -> Expr
    ensures { result ≡ spec.literal_of (meant value) }
{
    match value {
        Value::Integer(number) => Expr::Int(number),
        Value::Truth(holds) => Expr::Truth(holds),
        Value::Chars(text) => Expr::Chars(text),
    }
}

/// Where what is no dummy argument is kept.
fn place_by_value(value: Option<Value>) -> Place
    ensures { result ≡ spec.place_by_value (option_map meant value) }
{
    match value {
        None => Place::Stored(0),
        Some(value) => Place::Constant(literal_of(value)),
    }
}

/// Where an entity is kept.
fn place_by(
    alloc: Global,
    unit: &UnitTables,
    name: &Name,
    dummy: Option<usize>,
) -> Result<Place, NoMemory>
    ensures { IfOk result (λ place. place ≡ spec.place_by (facts_in unit.now) name.now dummy) }
{
    match dummy {
        None => Ok(place_by_value(value_of_name(alloc, name, &unit.values)?)),
        Some(place) => Ok(Place::Dummy(place.min(u32::MAX as usize) as u32)),
    }
}

/// The entity of a name, of which this is known.
fn entity_by(
    alloc: Global,
    unit: &UnitTables,
    number: u32,
    name: &Name,
    known: &Known,
) -> Result<Entity, NoMemory>
    ensures { IfOk result (λ entity. entity ≡ spec.entity_by (facts_in unit.now) number name.now known.now) }
{
    let kind = kind_or_integer(unit.tables.kind_of(name));
    let len = name_length(alloc, &unit.tables, name, &unit.values)?;
    let bounds = bounds_by(alloc, unit, known.dummy.is_some(), &known.bounds)?;
    let place = place_by(alloc, unit, name, known.dummy)?;
    Ok(Entity {
        unit: number,
        name: name.copy(),
        kind,
        len: length_by_kind(kind, len),
        bounds,
        place,
    })
}

/// The entity of a name of which nothing is declared.
fn undeclared(
    alloc: Global,
    unit: &UnitTables,
    number: u32,
    name: &Name,
) -> Result<Entity, NoMemory>
    ensures { IfOk result (λ entity. entity ≡ spec.entity_by (facts_in unit.now) number name.now unknown) }
{
    let kind = kind_or_integer(unit.tables.kind_of(name));
    let len = name_length(alloc, &unit.tables, name, &unit.values)?;
    let place = place_by(alloc, unit, name, None)?;
    Ok(Entity {
        unit: number,
        name: name.copy(),
        kind,
        len: length_by_kind(kind, len),
        bounds: Bounds::new(alloc),
        place,
    })
}

/// The entity of a name of a unit.
pub fn entity_of(
    alloc: Global,
    unit: &UnitTables,
    number: u32,
    name: &Name,
) -> Result<Entity, NoMemory>
    ensures { IfOk result (λ entity. entity ≡ spec.entity_of (facts_in unit.now) number name.now) }
{
    match unit.tables.names.find(name) {
        None => undeclared(alloc, unit, number, name),
        Some(known) => entity_by(alloc, unit, number, name, known),
    }
}
