//! Where a constant is due, and there is none (ANSI X3.9-1978, sections 5.1.1, 8.2, 8.4.2, 8.5, 8.6 and 9.1).
ghost use Rattle.std.specs.Prelude.{◌≡◌, ◌||◌, IfOk};
ghost use Rattle.std.specs.List.{list_any};
ghost use Rattle.f77_leaves.specs.Declarations.{holds_letter, typing_by};
ghost use Rattle.f77_due.specs.Due as spec;
ghost use Rattle.f77_due.specs.Starts.{facts_in};

use crate::makeup::{Makeup, makeup_of};
use crate::unit_facts::UnitTables;
use f77_ast::data::{DataConstant, DataGroup, DataValue, Repeat};
use f77_ast::expr::{Expr, Ref};
use f77_ast::name::Name;
use f77_ast::specification::{
    Bound, CommonGroup, Declarator, EquivalenceGroup, ImplicitRule, Length, LetterRange,
    NamedConstant, TypeSpec, TypedDeclarator,
};
use f77_ast::stmt::Stmt;
use f77_constants::evaluate::value_of_expr;
use hyb_base::no_memory::NoMemory;
use sqlite_items::Items;
use std::alloc::Global;

/// Whether an expression isn't constant, or has no value.
fn lacks_value(alloc: Global, unit: &UnitTables, expr: &Expr) -> Result<bool, NoMemory>
    ensures { IfOk result (λ lacks. lacks ≡ spec.lacks_value (facts_in unit.now) expr.now) }
{
    match value_of_expr(alloc, expr, &unit.values)? {
        None => Ok(true),
        Some(_) => Ok(false),
    }
}

/// Whether an expression that may be left out isn't constant, or has no value.
fn lacks_value_if(alloc: Global, unit: &UnitTables, expr: &Option<Expr>) -> Result<bool, NoMemory>
    ensures { IfOk result (λ lacks. lacks ≡ spec.lacks_value_if (facts_in unit.now) expr.now) }
{
    match expr {
        None => Ok(false),
        Some(expr) => lacks_value(alloc, unit, expr),
    }
}

/// Whether a name isn't a constant's that has a value.
fn lacks_name(unit: &UnitTables, name: &Name) -> bool
    ensures { result ≡ spec.lacks_name (facts_in unit.now) name.now }
{
    match unit.values.find(name) {
        None => true,
        Some(_) => false,
    }
}

/// Whether the upper bound of what is no dummy argument is `*`, or isn't constant.
fn lacks_upper(alloc: Global, unit: &UnitTables, upper: &Option<Expr>) -> Result<bool, NoMemory>
    ensures { IfOk result (λ lacks. lacks ≡ spec.lacks_upper (facts_in unit.now) upper.now) }
{
    match upper {
        None => Ok(true),
        Some(expr) => lacks_value(alloc, unit, expr),
    }
}

/// Whether a bound of what is no dummy argument isn't constant.
fn lacks_bound(alloc: Global, unit: &UnitTables, bound: &Bound) -> Result<bool, NoMemory>
    ensures { IfOk result (λ lacks. lacks ≡ spec.lacks_bound (facts_in unit.now) bound.now) }
{
    if lacks_value_if(alloc, unit, &bound.low)? {
        return Ok(true);
    }
    lacks_upper(alloc, unit, &bound.high)
}

/// Whether one of the bounds of what is no dummy argument isn't constant.
fn lacks_fixed_bounds(alloc: Global, unit: &UnitTables, bounds: &[Bound]) -> Result<bool, NoMemory>
    ensures { IfOk result (λ lacks. lacks ≡ list_any (spec.lacks_bound (facts_in unit.now)) bounds.now) }
{
    for bound in bounds {
        if lacks_bound(alloc, unit, bound)? {
            return Ok(true);
        }
    }
    Ok(false)
}

/// Whether a bound of a dummy argument is neither constant nor adjustable.
fn lacks_adjustable(alloc: Global, unit: &UnitTables, expr: &Expr) -> Result<bool, NoMemory>
    ensures { IfOk result (λ lacks. lacks ≡ spec.lacks_adjustable (facts_in unit.now) expr.now) }
{
    match makeup_of(unit, expr) {
        Makeup::Constant => lacks_value(alloc, unit, expr),
        Makeup::Adjustable => Ok(false),
        Makeup::Neither => Ok(true),
    }
}

/// Whether a lower bound of a dummy argument, where it isn't left out, is neither constant nor adjustable.
fn lacks_adjustable_if(
    alloc: Global,
    unit: &UnitTables,
    expr: &Option<Expr>,
) -> Result<bool, NoMemory>
    ensures { IfOk result (λ lacks. lacks ≡ spec.lacks_adjustable_if (facts_in unit.now) expr.now) }
{
    match expr {
        None => Ok(false),
        Some(expr) => lacks_adjustable(alloc, unit, expr),
    }
}

/// Whether an upper bound of a dummy argument is neither constant nor adjustable; the last one may be `*`.
fn lacks_dummy_upper(
    alloc: Global,
    unit: &UnitTables,
    last: bool,
    expr: &Option<Expr>,
) -> Result<bool, NoMemory>
    ensures { IfOk result (λ lacks. lacks ≡ spec.lacks_dummy_upper (facts_in unit.now) last expr.now) }
{
    match expr {
        None => Ok(!last),
        Some(expr) => lacks_adjustable(alloc, unit, expr),
    }
}

/// Whether a bound of a dummy argument is neither constant nor adjustable.
fn lacks_dummy_bound(
    alloc: Global,
    unit: &UnitTables,
    last: bool,
    bound: &Bound,
) -> Result<bool, NoMemory>
    ensures { IfOk result (λ lacks. lacks ≡ spec.lacks_dummy_bound (facts_in unit.now) last bound.now) }
{
    if lacks_adjustable_if(alloc, unit, &bound.low)? {
        return Ok(true);
    }
    lacks_dummy_upper(alloc, unit, last, &bound.high)
}

/// Whether there are no bounds.
fn are_none(bounds: &[Bound]) -> bool
    ensures { result ≡ spec.are_none bounds.now }
{
    match bounds {
        [] => true,
        [_, ..] => false,
    }
}

/// Whether one of the bounds of a dummy argument is neither constant nor adjustable.
fn lacks_dummy_bounds(alloc: Global, unit: &UnitTables, bounds: &[Bound]) -> Result<bool, NoMemory>
    ensures { IfOk result (λ lacks. lacks ≡ spec.lacks_dummy_bounds (facts_in unit.now) bounds.now) }
{
    match bounds {
        [] => Ok(false),
        [bound, rest @ ..] => {
            if lacks_dummy_bound(alloc, unit, are_none(rest), bound)? {
                return Ok(true);
            }
            lacks_dummy_bounds(alloc, unit, rest)
        }
    }
}

/// Whether a name is a dummy argument's.
fn is_dummy(unit: &UnitTables, name: &Name) -> bool
    ensures { result ≡ spec.is_dummy (facts_in unit.now) name.now }
{
    unit.tables.names.is_dummy(name)
}

/// Whether the bounds of a declared name, where it has some, aren't as they are due.
fn lacks_in_declarator(
    alloc: Global,
    unit: &UnitTables,
    declarator: &Declarator,
) -> Result<bool, NoMemory>
    ensures { IfOk result (λ lacks. lacks ≡ spec.lacks_in_declarator (facts_in unit.now) declarator.now) }
{
    if is_dummy(unit, &declarator.name) {
        lacks_dummy_bounds(alloc, unit, declarator.bounds.as_slice())
    } else {
        lacks_fixed_bounds(alloc, unit, declarator.bounds.as_slice())
    }
}

/// Whether the bounds of one of some declared names aren't as they are due.
fn lacks_in_declarators(
    alloc: Global,
    unit: &UnitTables,
    declarators: &[Declarator],
) -> Result<bool, NoMemory>
    ensures { IfOk result (λ lacks. lacks ≡ list_any (spec.lacks_in_declarator (facts_in unit.now)) declarators.now) }
{
    for declarator in declarators {
        if lacks_in_declarator(alloc, unit, declarator)? {
            return Ok(true);
        }
    }
    Ok(false)
}

/// Whether a length isn't constant.
fn lacks_length(alloc: Global, unit: &UnitTables, length: &Option<Length>) -> Result<bool, NoMemory>
    ensures { IfOk result (λ lacks. lacks ≡ spec.lacks_length (facts_in unit.now) length.now) }
{
    match length {
        None => Ok(false),
        Some(Length::Digits(_)) => Ok(false),
        Some(Length::Paren(expr)) => lacks_value(alloc, unit, expr),
        Some(Length::Asterisk) => Ok(false),
    }
}

/// Whether the length in a type isn't constant.
fn lacks_in_type(alloc: Global, unit: &UnitTables, typ: &TypeSpec) -> Result<bool, NoMemory>
    ensures { IfOk result (λ lacks. lacks ≡ spec.lacks_in_type (facts_in unit.now) typ.now) }
{
    match typ {
        TypeSpec::Integer => Ok(false),
        TypeSpec::Logical => Ok(false),
        TypeSpec::Character(length) => lacks_length(alloc, unit, length),
    }
}

/// Whether a length is `(*)`.
fn is_star(length: &Option<Length>) -> bool
    ensures { result ≡ spec.is_star length.now }
{
    match length {
        None => false,
        Some(Length::Digits(_)) => false,
        Some(Length::Paren(_)) => false,
        Some(Length::Asterisk) => true,
    }
}

/// Whether the length in a type is `(*)`.
fn has_star(typ: &TypeSpec) -> bool
    ensures { result ≡ spec.is_star (spec.type_length typ.now) }
{
    match typ {
        TypeSpec::Integer => false,
        TypeSpec::Logical => false,
        TypeSpec::Character(length) => is_star(length),
    }
}

/// Whether the length that a type statement gives a name, with a length of its own or without, is `(*)`.
fn gives_star(typ: &TypeSpec, own: &Option<Length>) -> bool
    ensures { result ≡ spec.is_star (typing_by typ.now own.now).length }
{
    match typ {
        TypeSpec::Integer => is_star(own),
        TypeSpec::Logical => is_star(own),
        TypeSpec::Character(common) => match own {
            None => is_star(common),
            Some(_) => is_star(own),
        },
    }
}

/// Whether a name in a type statement has bounds or a length that aren't as they are due.
fn lacks_in_entity(
    alloc: Global,
    unit: &UnitTables,
    typ: &TypeSpec,
    entity: &TypedDeclarator,
) -> Result<bool, NoMemory>
    ensures { IfOk result (λ lacks. lacks ≡ spec.lacks_in_entity (facts_in unit.now) typ.now entity.now) }
{
    if lacks_in_declarator(alloc, unit, &entity.declarator)? {
        return Ok(true);
    }
    if lacks_length(alloc, unit, &entity.length)? {
        return Ok(true);
    }
    Ok(gives_star(typ, &entity.length) && !is_dummy(unit, &entity.declarator.name))
}

/// Whether one of the names in a type statement has bounds or a length that aren't as they are due.
fn lacks_in_entities(
    alloc: Global,
    unit: &UnitTables,
    typ: &TypeSpec,
    entities: &[TypedDeclarator],
) -> Result<bool, NoMemory>
    ensures { IfOk result (λ lacks. lacks ≡ list_any (spec.lacks_in_entity (facts_in unit.now) typ.now) entities.now) }
{
    for entity in entities {
        if lacks_in_entity(alloc, unit, typ, entity)? {
            return Ok(true);
        }
    }
    Ok(false)
}

/// Whether a type statement has bounds or lengths that aren't as they are due.
fn lacks_in_declaration(
    alloc: Global,
    unit: &UnitTables,
    typ: &TypeSpec,
    entities: &[TypedDeclarator],
) -> Result<bool, NoMemory>
    ensures { IfOk result (λ lacks. lacks ≡ (spec.lacks_in_type (facts_in unit.now) typ.now || list_any (spec.lacks_in_entity (facts_in unit.now) typ.now) entities.now)) }
{
    if lacks_in_type(alloc, unit, typ)? {
        return Ok(true);
    }
    lacks_in_entities(alloc, unit, typ, entities)
}

/// Whether the length that FUNCTION gives its result isn't constant.
fn lacks_in_result(
    alloc: Global,
    unit: &UnitTables,
    typ: &Option<TypeSpec>,
) -> Result<bool, NoMemory>
    ensures { IfOk result (λ lacks. lacks ≡ spec.lacks_in_result (facts_in unit.now) typ.now) }
{
    match typ {
        None => Ok(false),
        Some(typ) => {
            if lacks_in_type(alloc, unit, typ)? {
                return Ok(true);
            }
            Ok(has_star(typ))
        }
    }
}

/// Whether a range of letters holds a letter.
fn holds_letter(letter: u8, range: LetterRange) -> bool
    ensures { result ≡ holds_letter letter range }
{
    let last = match range.last {
        None => range.first,
        Some(last) => last,
    };
    range.first <= letter && letter <= last
}

/// Whether one of some ranges of letters holds a letter.
fn hold_letter(letter: u8, ranges: &[LetterRange]) -> bool
    ensures { result ≡ list_any (holds_letter letter) ranges.now }
{
    ranges.iter().any(|range| holds_letter(letter, *range))
}

/// Whether an entity that is no dummy argument has its type by a rule of IMPLICIT, and begins with this letter.
fn starts_one(unit: &UnitTables, rule: &ImplicitRule, letter: u8) -> bool
    ensures { result ≡ spec.starts_one (facts_in unit.now) rule.now letter }
{
    unit.starts.has(letter) && hold_letter(letter, rule.letters.as_slice())
}

/// Whether an entity that is no dummy argument has its type by a rule of IMPLICIT.
fn starts_any(unit: &UnitTables, rule: &ImplicitRule) -> bool
    ensures { result ≡ list_any (spec.starts_one (facts_in unit.now) rule.now) spec.alphabet }
{
    b"ABCDEFGHIJKLMNOPQRSTUVWXYZ"
        .iter()
        .any(|letter| starts_one(unit, rule, *letter))
}

/// Whether a rule of IMPLICIT has a length that isn't constant, or gives `(*)` to what is no dummy argument.
fn lacks_in_rule(alloc: Global, unit: &UnitTables, rule: &ImplicitRule) -> Result<bool, NoMemory>
    ensures { IfOk result (λ lacks. lacks ≡ spec.lacks_in_rule (facts_in unit.now) rule.now) }
{
    if lacks_in_type(alloc, unit, &rule.typ)? {
        return Ok(true);
    }
    Ok(has_star(&rule.typ) && starts_any(unit, rule))
}

/// Whether one of the rules of IMPLICIT has a length that isn't as it is due.
fn lacks_in_rules(
    alloc: Global,
    unit: &UnitTables,
    rules: &[ImplicitRule],
) -> Result<bool, NoMemory>
    ensures { IfOk result (λ lacks. lacks ≡ list_any (spec.lacks_in_rule (facts_in unit.now)) rules.now) }
{
    for rule in rules {
        if lacks_in_rule(alloc, unit, rule)? {
            return Ok(true);
        }
    }
    Ok(false)
}

/// Whether the bounds of a member of COMMON aren't as they are due.
fn lacks_in_group(alloc: Global, unit: &UnitTables, group: &CommonGroup) -> Result<bool, NoMemory>
    ensures { IfOk result (λ lacks. lacks ≡ spec.lacks_in_group (facts_in unit.now) group.now) }
{
    lacks_in_declarators(alloc, unit, group.members.as_slice())
}

/// Whether the bounds of a member of one of some groups of COMMON aren't as they are due.
fn lacks_in_groups(
    alloc: Global,
    unit: &UnitTables,
    groups: &[CommonGroup],
) -> Result<bool, NoMemory>
    ensures { IfOk result (λ lacks. lacks ≡ list_any (spec.lacks_in_group (facts_in unit.now)) groups.now) }
{
    for group in groups {
        if lacks_in_group(alloc, unit, group)? {
            return Ok(true);
        }
    }
    Ok(false)
}

/// Whether the expression of a constant isn't constant, or has no value.
fn lacks_in_constant(
    alloc: Global,
    unit: &UnitTables,
    constant: &NamedConstant,
) -> Result<bool, NoMemory>
    ensures { IfOk result (λ lacks. lacks ≡ spec.lacks_in_constant (facts_in unit.now) constant.now) }
{
    lacks_value(alloc, unit, &constant.value)
}

/// Whether the expression of one of the constants of PARAMETER isn't constant, or has no value.
fn lacks_in_constants(
    alloc: Global,
    unit: &UnitTables,
    constants: &[NamedConstant],
) -> Result<bool, NoMemory>
    ensures { IfOk result (λ lacks. lacks ≡ list_any (spec.lacks_in_constant (facts_in unit.now)) constants.now) }
{
    for constant in constants {
        if lacks_in_constant(alloc, unit, constant)? {
            return Ok(true);
        }
    }
    Ok(false)
}

/// Whether one of some subscripts isn't constant.
fn lacks_in_subscripts(
    alloc: Global,
    unit: &UnitTables,
    subscripts: &[Expr],
) -> Result<bool, NoMemory>
    ensures { IfOk result (λ lacks. lacks ≡ list_any (spec.lacks_value (facts_in unit.now)) subscripts.now) }
{
    for subscript in subscripts {
        if lacks_value(alloc, unit, subscript)? {
            return Ok(true);
        }
    }
    Ok(false)
}

/// Whether a subscript of a list, where there is one, isn't constant.
fn lacks_in_list(
    alloc: Global,
    unit: &UnitTables,
    list: &Option<Items<Expr>>,
) -> Result<bool, NoMemory>
    ensures { IfOk result (λ lacks. lacks ≡ spec.lacks_in_list (facts_in unit.now) list.now) }
{
    match list {
        None => Ok(false),
        Some(subscripts) => lacks_in_subscripts(alloc, unit, subscripts.as_slice()),
    }
}

/// Whether an element that EQUIVALENCE or DATA names has a subscript that isn't constant.
fn lacks_in_ref(alloc: Global, unit: &UnitTables, reference: &Ref) -> Result<bool, NoMemory>
    ensures { IfOk result (λ lacks. lacks ≡ spec.lacks_in_ref (facts_in unit.now) reference.now) }
{
    if unit.tables.names.has_bounds(&reference.name) {
        lacks_in_list(alloc, unit, &reference.args)
    } else {
        Ok(false)
    }
}

/// Whether one of the elements that EQUIVALENCE or DATA names has a subscript that isn't constant.
fn lacks_in_refs(alloc: Global, unit: &UnitTables, references: &[Ref]) -> Result<bool, NoMemory>
    ensures { IfOk result (λ lacks. lacks ≡ list_any (spec.lacks_in_ref (facts_in unit.now)) references.now) }
{
    for reference in references {
        if lacks_in_ref(alloc, unit, reference)? {
            return Ok(true);
        }
    }
    Ok(false)
}

/// Whether a member of a list of EQUIVALENCE has a subscript that isn't constant.
fn lacks_in_members(
    alloc: Global,
    unit: &UnitTables,
    group: &EquivalenceGroup,
) -> Result<bool, NoMemory>
    ensures { IfOk result (λ lacks. lacks ≡ spec.lacks_in_members (facts_in unit.now) group.now) }
{
    lacks_in_refs(alloc, unit, group.members.as_slice())
}

/// Whether a member of one of the lists of EQUIVALENCE has a subscript that isn't constant.
fn lacks_in_equivalence(
    alloc: Global,
    unit: &UnitTables,
    groups: &[EquivalenceGroup],
) -> Result<bool, NoMemory>
    ensures { IfOk result (λ lacks. lacks ≡ list_any (spec.lacks_in_members (facts_in unit.now)) groups.now) }
{
    for group in groups {
        if lacks_in_members(alloc, unit, group)? {
            return Ok(true);
        }
    }
    Ok(false)
}

/// Whether a repeat isn't a constant's name that has a value, where it is a name.
fn lacks_in_repeat(unit: &UnitTables, repeat: &Option<Repeat>) -> bool
    ensures { result ≡ spec.lacks_in_repeat (facts_in unit.now) repeat.now }
{
    match repeat {
        None => false,
        Some(Repeat::Digits(_)) => false,
        Some(Repeat::Named(name)) => lacks_name(unit, name),
    }
}

/// Whether a constant of DATA isn't a constant's name that has a value, where it is a name.
fn lacks_in_datum(unit: &UnitTables, constant: &DataConstant) -> bool
    ensures { result ≡ spec.lacks_in_datum (facts_in unit.now) constant.now }
{
    match constant {
        DataConstant::Int(_) => false,
        DataConstant::Truth(_) => false,
        DataConstant::Chars(_) => false,
        DataConstant::Named(name) => lacks_name(unit, name),
    }
}

/// Whether a name between the slashes of DATA isn't a constant's that has a value.
fn lacks_in_value(unit: &UnitTables, value: &DataValue) -> bool
    ensures { result ≡ spec.lacks_in_value (facts_in unit.now) value.now }
{
    lacks_in_repeat(unit, &value.repeat) || lacks_in_datum(unit, &value.constant)
}

/// Whether one of the names between the slashes of DATA isn't a constant's that has a value.
fn lacks_in_values(unit: &UnitTables, values: &[DataValue]) -> bool
    ensures { result ≡ list_any (spec.lacks_in_value (facts_in unit.now)) values.now }
{
    values.iter().any(|value| lacks_in_value(unit, value))
}

/// Whether a group of DATA has a subscript that isn't constant, or a name between its slashes that isn't a constant's.
fn lacks_in_data(alloc: Global, unit: &UnitTables, group: &DataGroup) -> Result<bool, NoMemory>
    ensures { IfOk result (λ lacks. lacks ≡ spec.lacks_in_data (facts_in unit.now) group.now) }
{
    if lacks_in_refs(alloc, unit, group.targets.as_slice())? {
        return Ok(true);
    }
    Ok(lacks_in_values(unit, group.values.as_slice()))
}

/// Whether one of the groups of DATA has a subscript that isn't constant, or a name between its slashes that isn't a constant's.
fn lacks_in_init(alloc: Global, unit: &UnitTables, groups: &[DataGroup]) -> Result<bool, NoMemory>
    ensures { IfOk result (λ lacks. lacks ≡ list_any (spec.lacks_in_data (facts_in unit.now)) groups.now) }
{
    for group in groups {
        if lacks_in_data(alloc, unit, group)? {
            return Ok(true);
        }
    }
    Ok(false)
}

/// Whether a constant is due in a statement, and there is none.
pub fn lacks_constant(alloc: Global, unit: &UnitTables, stmt: &Stmt) -> Result<bool, NoMemory>
    ensures { IfOk result (λ lacks. lacks ≡ spec.lacks_constant (facts_in unit.now) stmt.now) }
{
    match stmt {
        Stmt::Assign { .. } => Ok(false),
        Stmt::Do { .. } => Ok(false),
        Stmt::Continue => Ok(false),
        Stmt::Return => Ok(false),
        Stmt::Else => Ok(false),
        Stmt::EndIf => Ok(false),
        Stmt::End => Ok(false),
        Stmt::Stop(_) => Ok(false),
        Stmt::Goto(_) => Ok(false),
        Stmt::ComputedGoto { .. } => Ok(false),
        Stmt::ArithmeticIf { .. } => Ok(false),
        Stmt::LogicalIf { .. } => Ok(false),
        Stmt::BlockIf(_) => Ok(false),
        Stmt::ElseIf(_) => Ok(false),
        Stmt::Call { .. } => Ok(false),
        Stmt::Print(_) => Ok(false),
        Stmt::Read(_) => Ok(false),
        Stmt::Program(_) => Ok(false),
        Stmt::Subroutine { .. } => Ok(false),
        Stmt::Function { typ, .. } => lacks_in_result(alloc, unit, typ),
        Stmt::Declare { typ, entities } => {
            lacks_in_declaration(alloc, unit, typ, entities.as_slice())
        }
        Stmt::Dimension(arrays) => lacks_in_declarators(alloc, unit, arrays.as_slice()),
        Stmt::Common(groups) => lacks_in_groups(alloc, unit, groups.as_slice()),
        Stmt::Equivalence(groups) => lacks_in_equivalence(alloc, unit, groups.as_slice()),
        Stmt::Parameter(constants) => lacks_in_constants(alloc, unit, constants.as_slice()),
        Stmt::Implicit(rules) => lacks_in_rules(alloc, unit, rules.as_slice()),
        Stmt::Save(_) => Ok(false),
        Stmt::Init(groups) => lacks_in_init(alloc, unit, groups.as_slice()),
    }
}
