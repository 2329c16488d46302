//! The parts of headings and specification statements.

use crate::exprs::{show_expr, show_reference};
use crate::lists::show_comma;
use f77_ast::expr::Ref;
use f77_ast::name::Name;
use f77_ast::specification::{
    Bound, CommonGroup, Declarator, EquivalenceGroup, ImplicitRule, Length, LetterRange,
    NamedConstant, SaveEntry, TypeSpec, TypedDeclarator,
};
use hyb_base::bytes::Bytes;
use hyb_base::decimal::print_i64;
use hyb_base::no_memory::NoMemory;
use sqlite_items::Items;

/// Shows dummy arguments: `[A,B]`, and `[]` where there is none.
pub fn show_dummies(names: &Items<Name>, into: &mut Bytes) -> Result<(), NoMemory> {
    into.push(b'[')?;
    for (place, name) in names.as_slice().iter().enumerate() {
        show_comma(place, into)?;
        into.push_slice(name.as_slice())?;
    }
    into.push(b']')
}

/// Shows a length: `*5`, `*(N)` or `*(*)`.
fn show_length(length: &Length, into: &mut Bytes) -> Result<(), NoMemory> {
    match length {
        Length::Digits(value) => {
            into.push(b'*')?;
            print_i64(*value, into)
        }
        Length::Paren(value) => {
            into.push_slice(b"*(".as_slice())?;
            show_expr(value, into)?;
            into.push(b')')
        }
        Length::Asterisk => into.push_slice(b"*(*)".as_slice()),
    }
}

/// Shows a length that may be left out: nothing where it is.
fn show_own_length(length: &Option<Length>, into: &mut Bytes) -> Result<(), NoMemory> {
    match length {
        None => Ok(()),
        Some(length) => show_length(length, into),
    }
}

/// Shows a type: `integer`, `logical`, `character` or `character*5`.
pub fn show_type(typ: &TypeSpec, into: &mut Bytes) -> Result<(), NoMemory> {
    match typ {
        TypeSpec::Integer => into.push_slice(b"integer".as_slice()),
        TypeSpec::Logical => into.push_slice(b"logical".as_slice()),
        TypeSpec::Character(length) => {
            into.push_slice(b"character".as_slice())?;
            show_own_length(length, into)
        }
    }
}

/// Shows the dimension of an array: `0:9`, `_:9` where the lower bound is left out, `0:*` where the upper one is `*`.
fn show_bound(bound: &Bound, into: &mut Bytes) -> Result<(), NoMemory> {
    match &bound.low {
        Some(low) => show_expr(low, into)?,
        None => into.push(b'_')?,
    }
    into.push(b':')?;
    match &bound.high {
        Some(high) => show_expr(high, into),
        None => into.push(b'*'),
    }
}

/// Shows dimensions: `(_:2,0:9)`, and nothing where there is none.
pub fn show_bounds(bounds: &[Bound], into: &mut Bytes) -> Result<(), NoMemory> {
    if bounds.is_empty() {
        return Ok(());
    }
    into.push(b'(')?;
    for (place, bound) in bounds.iter().enumerate() {
        show_comma(place, into)?;
        show_bound(bound, into)?;
    }
    into.push(b')')
}

/// Shows a declarator: `A` or `A(_:2)`.
fn show_declarator(declarator: &Declarator, into: &mut Bytes) -> Result<(), NoMemory> {
    into.push_slice(declarator.name.as_slice())?;
    show_bounds(declarator.bounds.as_slice(), into)
}

/// Shows declarators: `A(_:2),B`.
pub fn show_declarators(declarators: &Items<Declarator>, into: &mut Bytes) -> Result<(), NoMemory> {
    for (place, declarator) in declarators.as_slice().iter().enumerate() {
        show_comma(place, into)?;
        show_declarator(declarator, into)?;
    }
    Ok(())
}

/// Shows the entities of a type statement: `A,B(_:2)*5`.
pub fn show_declared(entities: &Items<TypedDeclarator>, into: &mut Bytes) -> Result<(), NoMemory> {
    for (place, entity) in entities.as_slice().iter().enumerate() {
        show_comma(place, into)?;
        show_declarator(&entity.declarator, into)?;
        show_own_length(&entity.length, into)?;
    }
    Ok(())
}

/// Shows the groups of COMMON, each after a blank: ` //A /X/B,C`.
pub fn show_common(groups: &Items<CommonGroup>, into: &mut Bytes) -> Result<(), NoMemory> {
    for group in groups.as_slice() {
        into.push_slice(b" /".as_slice())?;
        if let Some(block) = &group.block {
            into.push_slice(block.as_slice())?;
        }
        into.push(b'/')?;
        show_declarators(&group.members, into)?;
    }
    Ok(())
}

/// Shows references: `A[1],B`.
pub fn show_references(references: &Items<Ref>, into: &mut Bytes) -> Result<(), NoMemory> {
    for (place, reference) in references.as_slice().iter().enumerate() {
        show_comma(place, into)?;
        show_reference(reference, into)?;
    }
    Ok(())
}

/// Shows the lists of EQUIVALENCE, each after a blank: ` (A,B) (C,D)`.
pub fn show_equivalence(
    groups: &Items<EquivalenceGroup>,
    into: &mut Bytes,
) -> Result<(), NoMemory> {
    for group in groups.as_slice() {
        into.push_slice(b" (".as_slice())?;
        show_references(&group.members, into)?;
        into.push(b')')?;
    }
    Ok(())
}

/// Shows the constants of PARAMETER: `N 5,M (N*2)`.
pub fn show_constants(constants: &Items<NamedConstant>, into: &mut Bytes) -> Result<(), NoMemory> {
    for (place, constant) in constants.as_slice().iter().enumerate() {
        show_comma(place, into)?;
        into.push_slice(constant.name.as_slice())?;
        into.push(b' ')?;
        show_expr(&constant.value, into)?;
    }
    Ok(())
}

/// Shows a range of letters: `A-C`, or `X` where it has one.
fn show_range(range: &LetterRange, into: &mut Bytes) -> Result<(), NoMemory> {
    into.push(range.first)?;
    if let Some(last) = range.last {
        into.push(b'-')?;
        into.push(last)?;
    }
    Ok(())
}

/// Shows the ranges of letters of a rule of IMPLICIT: `(A-C,X)`.
fn show_letters(letters: &Items<LetterRange>, into: &mut Bytes) -> Result<(), NoMemory> {
    into.push(b'(')?;
    for (place, range) in letters.as_slice().iter().enumerate() {
        show_comma(place, into)?;
        show_range(range, into)?;
    }
    into.push(b')')
}

/// Shows the rules of IMPLICIT, each after a blank: ` integer(A-C,X) logical(L)`.
pub fn show_rules(rules: &Items<ImplicitRule>, into: &mut Bytes) -> Result<(), NoMemory> {
    for rule in rules.as_slice() {
        into.push(b' ')?;
        show_type(&rule.typ, into)?;
        show_letters(&rule.letters, into)?;
    }
    Ok(())
}

/// Shows a name of SAVE: `A`, or `/X/` for a common block.
fn show_saved(entry: &SaveEntry, into: &mut Bytes) -> Result<(), NoMemory> {
    match entry {
        SaveEntry::Entity(name) => into.push_slice(name.as_slice()),
        SaveEntry::Block(name) => {
            into.push(b'/')?;
            into.push_slice(name.as_slice())?;
            into.push(b'/')
        }
    }
}

/// Shows the names of SAVE, each after a blank: ` A /X/`.
pub fn show_save(entries: &Items<SaveEntry>, into: &mut Bytes) -> Result<(), NoMemory> {
    for entry in entries.as_slice() {
        into.push(b' ')?;
        show_saved(entry, into)?;
    }
    Ok(())
}
