//! Statements: a word for each kind in lower case, and its parts.

use crate::declarations::{
    show_common, show_constants, show_declarators, show_declared, show_dummies, show_equivalence,
    show_rules, show_save, show_type,
};
use crate::exprs::{show_arguments, show_characters, show_expr, show_reference};
use crate::initial::show_groups;
use crate::items::{show_control, show_items, show_labels};
use crate::lists::show_field;
use f77_ast::expr::{Expr, Ref};
use f77_ast::name::Name;
use f77_ast::specification::{Declarator, NamedConstant, TypeSpec, TypedDeclarator};
use f77_ast::stmt::{Item, Label, LoopControl, Stmt, StopCode};
use hyb_base::bytes::Bytes;
use hyb_base::no_memory::NoMemory;
use sqlite_items::Items;

/// Shows a word, a blank and a name.
fn show_named(word: &[u8], name: &Name, into: &mut Bytes) -> Result<(), NoMemory> {
    into.push_slice(word)?;
    into.push(b' ')?;
    into.push_slice(name.as_slice())
}

/// `set A[I] (B+1)`
fn show_assign(target: &Ref, value: &Expr, into: &mut Bytes) -> Result<(), NoMemory> {
    into.push_slice(b"set ".as_slice())?;
    show_reference(target, into)?;
    into.push(b' ')?;
    show_expr(value, into)
}

/// `do 10 I 1 N 2`
fn show_do(terminal: Label, control: &LoopControl, into: &mut Bytes) -> Result<(), NoMemory> {
    into.push_slice(b"do".as_slice())?;
    show_field(terminal, into)?;
    into.push(b' ')?;
    show_control(control, into)
}

/// `stop`, `stop 5` or `stop "It's"`
fn show_stop(code: &Option<StopCode>, into: &mut Bytes) -> Result<(), NoMemory> {
    into.push_slice(b"stop".as_slice())?;
    match code {
        None => Ok(()),
        Some(StopCode::Digits(value)) => show_field(*value, into),
        Some(StopCode::Chars(characters)) => {
            into.push(b' ')?;
            show_characters(characters, into)
        }
    }
}

/// `goto 10`
fn show_goto(label: Label, into: &mut Bytes) -> Result<(), NoMemory> {
    into.push_slice(b"goto".as_slice())?;
    show_field(label, into)
}

/// `goto 10,20 K`: a computed GO TO
fn show_computed_goto(
    labels: &Items<Label>,
    index: &Expr,
    into: &mut Bytes,
) -> Result<(), NoMemory> {
    into.push_slice(b"goto ".as_slice())?;
    show_labels(labels.as_slice(), into)?;
    into.push(b' ')?;
    show_expr(index, into)
}

/// `if (A-B) 10,20,30`
fn show_arithmetic_if(value: &Expr, labels: &[Label], into: &mut Bytes) -> Result<(), NoMemory> {
    into.push_slice(b"if ".as_slice())?;
    show_expr(value, into)?;
    into.push(b' ')?;
    show_labels(labels, into)
}

/// The condition of a logical IF, and what is between it and its statement: `if L: `
fn show_condition(condition: &Expr, into: &mut Bytes) -> Result<(), NoMemory> {
    into.push_slice(b"if ".as_slice())?;
    show_expr(condition, into)?;
    into.push_slice(b": ".as_slice())
}

/// `if L then`, or `elseif L then`
fn show_then(word: &[u8], condition: &Expr, into: &mut Bytes) -> Result<(), NoMemory> {
    into.push_slice(word)?;
    into.push(b' ')?;
    show_expr(condition, into)?;
    into.push_slice(b" then".as_slice())
}

/// `call P[]` or `call P[A,1]`
fn show_call(name: &Name, arguments: &Items<Expr>, into: &mut Bytes) -> Result<(), NoMemory> {
    show_named(b"call".as_slice(), name, into)?;
    show_arguments(arguments, into)
}

/// `print`, `print A,B` or `read A`
fn show_transfer(word: &[u8], items: &Items<Item>, into: &mut Bytes) -> Result<(), NoMemory> {
    into.push_slice(word)?;
    if items.is_empty() {
        return Ok(());
    }
    into.push(b' ')?;
    show_items(items, into)
}

/// `subroutine S[A,B]`
fn show_subroutine(name: &Name, dummies: &Items<Name>, into: &mut Bytes) -> Result<(), NoMemory> {
    show_named(b"subroutine".as_slice(), name, into)?;
    show_dummies(dummies, into)
}

/// `function integer F[A]`, and `-` for a type that is left out: `function - F[]`
fn show_function(
    typ: &Option<TypeSpec>,
    name: &Name,
    dummies: &Items<Name>,
    into: &mut Bytes,
) -> Result<(), NoMemory> {
    into.push_slice(b"function ".as_slice())?;
    match typ {
        Some(typ) => show_type(typ, into)?,
        None => into.push(b'-')?,
    }
    into.push(b' ')?;
    into.push_slice(name.as_slice())?;
    show_dummies(dummies, into)
}

/// `declare integer A,B(_:2)`
fn show_declare(
    typ: &TypeSpec,
    entities: &Items<TypedDeclarator>,
    into: &mut Bytes,
) -> Result<(), NoMemory> {
    into.push_slice(b"declare ".as_slice())?;
    show_type(typ, into)?;
    into.push(b' ')?;
    show_declared(entities, into)
}

/// `dimension A(_:2),B(0:1)`
fn show_dimension(arrays: &Items<Declarator>, into: &mut Bytes) -> Result<(), NoMemory> {
    into.push_slice(b"dimension ".as_slice())?;
    show_declarators(arrays, into)
}

/// `parameter N 5,M (N*2)`
fn show_parameter(constants: &Items<NamedConstant>, into: &mut Bytes) -> Result<(), NoMemory> {
    into.push_slice(b"parameter ".as_slice())?;
    show_constants(constants, into)
}

/// Shows a statement: a word for its kind in lower case, then its parts in the order in which they are spelled. The words
/// are `set` for an assignment, `declare` for a type statement, `print` for PRINT and WRITE, and FORTRAN's own for all
/// others: `do 10 I 1 N`, `goto 10,20 K`, `if L: set A 1`, `if (A-B) 10,20,30`, `if L then`, `call P[A,1]`,
/// `print A,(B[I]|I 1 3)`, `function character*5 F[X]`, `common //A /X/B,C`, `data A,B/1,3*0/`.
pub fn show_stmt(stmt: &Stmt, into: &mut Bytes) -> Result<(), NoMemory> {
    match stmt {
        Stmt::Assign { target, value } => show_assign(target, value, into),
        Stmt::Do { terminal, control } => show_do(*terminal, control, into),
        Stmt::Continue => into.push_slice(b"continue".as_slice()),
        Stmt::Return => into.push_slice(b"return".as_slice()),
        Stmt::Else => into.push_slice(b"else".as_slice()),
        Stmt::EndIf => into.push_slice(b"endif".as_slice()),
        Stmt::End => into.push_slice(b"end".as_slice()),
        Stmt::Stop(code) => show_stop(code, into),
        Stmt::Goto(label) => show_goto(*label, into),
        Stmt::ComputedGoto { labels, index } => show_computed_goto(labels, index, into),
        Stmt::ArithmeticIf {
            value,
            negative,
            zero,
            positive,
        } => show_arithmetic_if(value, &[*negative, *zero, *positive], into),
        Stmt::LogicalIf { condition, inner } => {
            show_condition(condition, into)?;
            show_stmt(inner.get(), into)
        }
        Stmt::BlockIf(condition) => show_then(b"if".as_slice(), condition, into),
        Stmt::ElseIf(condition) => show_then(b"elseif".as_slice(), condition, into),
        Stmt::Call { name, args } => show_call(name, args, into),
        Stmt::Print(items) => show_transfer(b"print".as_slice(), items, into),
        Stmt::Read(items) => show_transfer(b"read".as_slice(), items, into),
        Stmt::Program(name) => show_named(b"program".as_slice(), name, into),
        Stmt::Subroutine { name, dummies } => show_subroutine(name, dummies, into),
        Stmt::Function { typ, name, dummies } => show_function(typ, name, dummies, into),
        Stmt::Declare { typ, entities } => show_declare(typ, entities, into),
        Stmt::Dimension(arrays) => show_dimension(arrays, into),
        Stmt::Common(groups) => {
            into.push_slice(b"common".as_slice())?;
            show_common(groups, into)
        }
        Stmt::Equivalence(groups) => {
            into.push_slice(b"equivalence".as_slice())?;
            show_equivalence(groups, into)
        }
        Stmt::Parameter(constants) => show_parameter(constants, into),
        Stmt::Implicit(rules) => {
            into.push_slice(b"implicit".as_slice())?;
            show_rules(rules, into)
        }
        Stmt::Save(entries) => {
            into.push_slice(b"save".as_slice())?;
            show_save(entries, into)
        }
        Stmt::Init(groups) => {
            into.push_slice(b"data".as_slice())?;
            show_groups(groups, into)
        }
    }
}
