//! Which declarations are built (ANSI X3.9-1978, section 8).
ghost use Rattle.std.specs.Prelude.{◌≡◌};
ghost use Rattle.std.specs.List.{list_all};
ghost use Rattle.f77_built.specs.Declared as spec;

use crate::entities::{names_constant, takes_storage};
use f77_ast::entities::Entities;
use f77_ast::specification::{Declarator, ImplicitRule, NamedConstant, TypeSpec, TypedDeclarator};
use f77_ast::stmt::Stmt;

/// Whether a type is INTEGER.
fn is_integer_type(typ: &TypeSpec) -> bool
    ensures { result ≡ spec.is_integer_type typ.now }
{
    match typ {
        TypeSpec::Integer => true,
        TypeSpec::Logical => false,
        TypeSpec::Character(_) => false,
    }
}

/// Whether a name with its bounds is built: without bounds, or an array of one dimension with an element.
fn declarator_is_built(entities: &Entities, unit: u32, declarator: &Declarator) -> bool
    ensures { result ≡ spec.declarator_is_built entities.now unit declarator.now }
{
    match declarator.bounds.as_slice() {
        [] => true,
        [_bound] => takes_storage(entities, unit, &declarator.name),
        [_, _, ..] => false,
    }
}

/// Whether the names of DIMENSION are built.
fn declarators_are_built(entities: &Entities, unit: u32, arrays: &[Declarator]) -> bool
    ensures { result ≡ list_all (spec.declarator_is_built entities.now unit) arrays.now }
{
    arrays
        .iter()
        .all(|array| declarator_is_built(entities, unit, array))
}

/// Whether a name of a type statement is built: it has no length of its own.
fn typed_is_built(entities: &Entities, unit: u32, typed: &TypedDeclarator) -> bool
    ensures { result ≡ spec.typed_is_built entities.now unit typed.now }
{
    typed.length.is_none() && declarator_is_built(entities, unit, &typed.declarator)
}

/// Whether the names of a type statement are built.
fn all_typed_are_built(entities: &Entities, unit: u32, names: &[TypedDeclarator]) -> bool
    ensures { result ≡ list_all (spec.typed_is_built entities.now unit) names.now }
{
    names
        .iter()
        .all(|typed| typed_is_built(entities, unit, typed))
}

/// Whether a constant of PARAMETER is one of INTEGER.
fn constant_is_built(entities: &Entities, unit: u32, constant: &NamedConstant) -> bool
    ensures { result ≡ spec.constant_is_built entities.now unit constant.now }
{
    names_constant(entities, unit, &constant.name)
}

/// Whether the constants of PARAMETER are.
fn constants_are_built(entities: &Entities, unit: u32, constants: &[NamedConstant]) -> bool
    ensures { result ≡ list_all (spec.constant_is_built entities.now unit) constants.now }
{
    constants
        .iter()
        .all(|constant| constant_is_built(entities, unit, constant))
}

/// Whether a rule of IMPLICIT gives the type INTEGER.
fn rule_is_built(rule: &ImplicitRule) -> bool
    ensures { result ≡ spec.rule_is_built rule.now }
{
    is_integer_type(&rule.typ)
}

/// Whether the rules of IMPLICIT do.
fn rules_are_built(rules: &[ImplicitRule]) -> bool
    ensures { result ≡ list_all spec.rule_is_built rules.now }
{
    rules.iter().all(|rule| rule_is_built(rule))
}

/// Whether a statement declares nothing, or what is built: INTEGER and DIMENSION of variables and of arrays of one dimension,
/// INTEGER constants, IMPLICIT of INTEGER, and SAVE.
pub fn declares_built(entities: &Entities, unit: u32, stmt: &Stmt) -> bool
    ensures { result ≡ spec.declares_built entities.now unit stmt.now }
{
    match stmt {
        Stmt::Declare {
            typ,
            entities: names,
        } => is_integer_type(typ) && all_typed_are_built(entities, unit, names.as_slice()),
        Stmt::Dimension(arrays) => declarators_are_built(entities, unit, arrays.as_slice()),
        Stmt::Parameter(constants) => constants_are_built(entities, unit, constants.as_slice()),
        Stmt::Implicit(rules) => rules_are_built(rules.as_slice()),
        Stmt::Common(_) => false,
        Stmt::Equivalence(_) => false,
        Stmt::Init(_) => false,
        Stmt::Save(_) => true,
        Stmt::Assign { .. } => true,
        Stmt::Do { .. } => true,
        Stmt::Continue => true,
        Stmt::Return => true,
        Stmt::Else => true,
        Stmt::EndIf => true,
        Stmt::End => true,
        Stmt::Stop(_) => true,
        Stmt::Goto(_) => true,
        Stmt::ComputedGoto { .. } => true,
        Stmt::ArithmeticIf { .. } => true,
        Stmt::LogicalIf { .. } => true,
        Stmt::BlockIf(_) => true,
        Stmt::ElseIf(_) => true,
        Stmt::Call { .. } => true,
        Stmt::Print(_) => true,
        Stmt::Read(_) => true,
        Stmt::Program(_) => true,
        Stmt::Subroutine { .. } => true,
        Stmt::Function { .. } => true,
    }
}
