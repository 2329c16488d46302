//! What a statement declares of names (ANSI X3.9-1978, section 8).
ghost use Rattle.std.specs.Prelude.{◌≡◌, ◌++◌, ◌∷◌, [], IfOk, OnOk};
ghost use Rattle.std.specs.List.{flat_map};
ghost use Rattle.f77_leaves.specs.Declarations as spec;

use crate::copies::{copy_bounds, typing_by};
use f77_ast::name::Name;
use f77_ast::specification::{
    Bound, CommonGroup, Declarator, NamedConstant, TypeSpec, TypedDeclarator,
};
use f77_ast::stmt::Stmt;
use f77_leaves::declarations::{Declared, Fact};
use f77_trees::copy::copy_expr;
use hyb_base::list::List;
use hyb_base::no_memory::NoMemory;
use std::alloc::Global;

/// What is declared of names, in order.
pub type Facts = List<Declared>;

/// Adds what is declared of a name.
fn add(name: &Name, fact: Fact, into: &mut Facts) -> Result<(), NoMemory>
    ensures { OnOk result (into.new ≡ into.old ++ spec.of_name name.now fact ∷ []) }
{
    into.push(Declared {
        name: name.copy(),
        fact,
    })
}

/// Adds the bounds of a name, where it has some.
fn add_bounds(
    alloc: Global,
    name: &Name,
    bounds: &[Bound],
    into: &mut Facts,
) -> Result<(), NoMemory>
    ensures { OnOk result (into.new ≡ into.old ++ spec.bounds_facts name.now bounds.now) }
{
    if bounds.is_empty() {
        return Ok(());
    }
    let bounds = copy_bounds(alloc, bounds)?;
    add(name, Fact::Bounded(bounds), into)
}

/// Adds the bounds of a declared name, where it has some.
fn add_declarator(alloc: Global, declarator: &Declarator, into: &mut Facts) -> Result<(), NoMemory>
    ensures { OnOk result (into.new ≡ into.old ++ spec.declarator_facts declarator.now) }
{
    add_bounds(alloc, &declarator.name, declarator.bounds.as_slice(), into)
}

/// Adds the bounds of declared names.
fn add_declarators(
    alloc: Global,
    declarators: &[Declarator],
    into: &mut Facts,
) -> Result<(), NoMemory>
    ensures { OnOk result (into.new ≡ into.old ++ flat_map spec.declarator_facts declarators.now) }
{
    for declarator in declarators {
        add_declarator(alloc, declarator, into)?;
    }
    Ok(())
}

/// Adds what a type statement declares of a name: its type, and its bounds.
fn add_entity(
    alloc: Global,
    typ: &TypeSpec,
    entity: &TypedDeclarator,
    into: &mut Facts,
) -> Result<(), NoMemory>
    ensures { OnOk result (into.new ≡ into.old ++ spec.entity_facts typ.now entity.now) }
{
    let typing = typing_by(alloc, typ, &entity.length)?;
    add(&entity.declarator.name, Fact::Typed(typing), into)?;
    add_declarator(alloc, &entity.declarator, into)
}

/// Adds what a type statement declares.
fn add_entities(
    alloc: Global,
    typ: &TypeSpec,
    entities: &[TypedDeclarator],
    into: &mut Facts,
) -> Result<(), NoMemory>
    ensures { OnOk result (into.new ≡ into.old ++ flat_map (spec.entity_facts typ.now) entities.now) }
{
    for entity in entities {
        add_entity(alloc, typ, entity, into)?;
    }
    Ok(())
}

/// Adds what COMMON declares of members: their places there, and their bounds.
fn add_members(alloc: Global, members: &[Declarator], into: &mut Facts) -> Result<(), NoMemory>
    ensures { OnOk result (into.new ≡ into.old ++ flat_map spec.common_facts members.now) }
{
    for member in members {
        add(&member.name, Fact::Common, into)?;
        add_declarator(alloc, member, into)?;
    }
    Ok(())
}

/// Adds what COMMON declares.
fn add_groups(alloc: Global, groups: &[CommonGroup], into: &mut Facts) -> Result<(), NoMemory>
    ensures { OnOk result (into.new ≡ into.old ++ flat_map spec.group_facts groups.now) }
{
    for group in groups {
        add_members(alloc, group.members.as_slice(), into)?;
    }
    Ok(())
}

/// Adds what PARAMETER declares.
fn add_constants(
    alloc: Global,
    constants: &[NamedConstant],
    into: &mut Facts,
) -> Result<(), NoMemory>
    ensures { OnOk result (into.new ≡ into.old ++ flat_map spec.constant_facts constants.now) }
{
    for constant in constants {
        let value = copy_expr(alloc, &constant.value)?;
        add(&constant.name, Fact::Valued(value), into)?;
    }
    Ok(())
}

/// Adds dummy arguments, with their places from 0.
fn add_dummies(dummies: &[Name], into: &mut Facts) -> Result<(), NoMemory>
    ensures { OnOk result (into.new ≡ into.old ++ spec.dummy_facts 0 dummies.now) }
{
    for (place, dummy) in dummies.iter().enumerate() {
        add(dummy, Fact::Dummy(place), into)?;
    }
    Ok(())
}

/// Adds what SUBROUTINE declares.
fn add_subroutine(name: &Name, dummies: &[Name], into: &mut Facts) -> Result<(), NoMemory>
    ensures { OnOk result (into.new ≡ into.old ++ (spec.of_name name.now Fact.Heading ∷ spec.dummy_facts 0 dummies.now)) }
{
    add(name, Fact::Heading, into)?;
    add_dummies(dummies, into)
}

/// Adds the type of a result.
fn add_result(
    alloc: Global,
    name: &Name,
    typ: &Option<TypeSpec>,
    into: &mut Facts,
) -> Result<(), NoMemory>
    ensures { OnOk result (into.new ≡ into.old ++ spec.result_facts name.now typ.now) }
{
    match typ {
        None => Ok(()),
        Some(typ) => {
            let typing = typing_by(alloc, typ, &None)?;
            add(name, Fact::Typed(typing), into)
        }
    }
}

/// Adds what FUNCTION declares.
fn add_function(
    alloc: Global,
    typ: &Option<TypeSpec>,
    name: &Name,
    dummies: &[Name],
    into: &mut Facts,
) -> Result<(), NoMemory>
    ensures { OnOk result (into.new ≡ into.old ++ (spec.of_name name.now Fact.Result ∷ (spec.result_facts name.now typ.now ++ spec.dummy_facts 0 dummies.now))) }
{
    add(name, Fact::Result, into)?;
    add_result(alloc, name, typ, into)?;
    add_dummies(dummies, into)
}

/// What a statement declares of names, in order.
pub fn facts_in(alloc: Global, stmt: &Stmt) -> Result<Facts, NoMemory>
    ensures { IfOk result (λ facts. facts ≡ spec.facts_in stmt.now) }
{
    let mut facts = Facts::new(alloc);
    match stmt {
        Stmt::Assign { .. } => (),
        Stmt::Do { .. } => (),
        Stmt::Continue => (),
        Stmt::Return => (),
        Stmt::Else => (),
        Stmt::EndIf => (),
        Stmt::End => (),
        Stmt::Stop(_) => (),
        Stmt::Goto(_) => (),
        Stmt::ComputedGoto { .. } => (),
        Stmt::ArithmeticIf { .. } => (),
        Stmt::LogicalIf { .. } => (),
        Stmt::BlockIf(_) => (),
        Stmt::ElseIf(_) => (),
        Stmt::Call { .. } => (),
        Stmt::Print(_) => (),
        Stmt::Read(_) => (),
        Stmt::Program(name) => add(name, Fact::Heading, &mut facts)?,
        Stmt::Subroutine { name, dummies } => {
            add_subroutine(name, dummies.as_slice(), &mut facts)?
        }
        Stmt::Function { typ, name, dummies } => {
            add_function(alloc, typ, name, dummies.as_slice(), &mut facts)?
        }
        Stmt::Declare { typ, entities } => {
            add_entities(alloc, typ, entities.as_slice(), &mut facts)?
        }
        Stmt::Dimension(arrays) => add_declarators(alloc, arrays.as_slice(), &mut facts)?,
        Stmt::Common(groups) => add_groups(alloc, groups.as_slice(), &mut facts)?,
        Stmt::Equivalence(_) => (),
        Stmt::Parameter(constants) => add_constants(alloc, constants.as_slice(), &mut facts)?,
        Stmt::Implicit(_) => (),
        Stmt::Save(_) => (),
        Stmt::Init(_) => (),
    }
    Ok(facts)
}
