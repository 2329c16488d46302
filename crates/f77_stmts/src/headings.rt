//! Statements that begin a unit, and those that begin with a type: what follows the first word of each
//! (ANSI X3.9-1978, sections 8.4, 14.1, 15.5.1 and 15.6.1).
ghost use Rattle.std.specs.Prelude.{◌≡◌, ◌≤◌, length, IsOkUnless};
ghost use Rattle.f77_exprs.specs.Read.{Reads};
ghost use Rattle.f77_forms.specs.Form.{read};
ghost use Rattle.f77_stmts.specs.Rows.{rule};
ghost use Rattle.f77_stmts.specs.Rows as rows;
ghost use Rattle.f77_stmts.specs.declared.keyword.Keyword.TheVariants as word;

use crate::typed::Typed;
use f77_ast::specification::TypeSpec;
use f77_ast::stmt::Stmt;
use f77_exprs::reader::Reader;
use f77_exprs::unread::Unread;
use f77_forms::leaves::expect_word;
use f77_forms::list::list;
use f77_parts::declarators::{ATextEntity, AnEntity};
use f77_parts::lists::{dummies, dummy_list};
use f77_parts::types::len;
use std::alloc::Global;

/// Program: `PROGRAM` name (ANSI X3.9-1978, section 14.1)
pub fn program(reader: &mut Reader<'_>) -> Result<Stmt, Unread>
    ensures value { Reads (read 0 (rule word.Program) reader.old) result reader.new }
    ensures within { length reader.new ≤ length reader.old }
    ensures err { IsOkUnless result Unread.Unspelled }
{
    let name = reader.name()?;
    Ok(Stmt::Program(name))
}

/// Subroutine: `SUBROUTINE` name [`(` [list(name)] `)`] (ANSI X3.9-1978, section 15.6.1)
pub fn subroutine(alloc: Global, reader: &mut Reader<'_>, depth: usize) -> Result<Stmt, Unread>
    ensures value { Reads (read depth (rule word.Subroutine) reader.old) result reader.new }
    ensures within { length reader.new ≤ length reader.old }
{
    let name = reader.name()?;
    let dummies = dummy_list(alloc, reader, depth)?;
    Ok(Stmt::Subroutine { name, dummies })
}

/// Function without typ: `FUNCTION` name `(` [list(name)] `)` (ANSI X3.9-1978, section 15.5.1)
pub fn function(alloc: Global, reader: &mut Reader<'_>, depth: usize) -> Result<Stmt, Unread>
    ensures value { Reads (read depth (rule word.Function) reader.old) result reader.new }
    ensures within { length reader.new ≤ length reader.old }
{
    let name = reader.name()?;
    expect_word(reader, b"(".as_slice())?;
    let dummies = dummies(alloc, reader, depth)?;
    Ok(Stmt::Function {
        typ: None,
        name,
        dummies,
    })
}

/// The statement that a type and what follows it make.
fn typed_by(typ: TypeSpec, behind: Typed) -> Stmt
    ensures { result ≡ rows.typed_by typ behind }
{
    match behind {
        Typed::Function(name, dummies) => Stmt::Function {
            typ: Some(typ),
            name,
            dummies,
        },
        Typed::Entities(entities) => Stmt::Declare { typ, entities },
    }
}

/// name `(` [list(name)] `)` after a type and `FUNCTION`
fn typed_function(alloc: Global, reader: &mut Reader<'_>, depth: usize) -> Result<Typed, Unread>
    ensures value { Reads (read depth rows.typed_function reader.old) result reader.new }
    ensures within { length reader.new ≤ length reader.old }
{
    let name = reader.name()?;
    expect_word(reader, b"(".as_slice())?;
    let dummies = dummies(alloc, reader, depth)?;
    Ok(Typed::Function(name, dummies))
}

/// `FUNCTION` name `(` [list(name)] `)`, or list(decl)
fn behind_type(alloc: Global, reader: &mut Reader<'_>, depth: usize) -> Result<Typed, Unread>
    ensures value { Reads (read depth rows.behind_type reader.old) result reader.new }
    ensures within { length reader.new ≤ length reader.old }
{
    if reader.eat_word(b"FUNCTION".as_slice()) {
        return typed_function(alloc, reader, depth);
    }
    let entities = list::<AnEntity>(alloc, reader, depth)?;
    Ok(Typed::Entities(entities))
}

/// `FUNCTION` name `(` [list(name)] `)`, or list(decl [`*` len])
fn behind_character(alloc: Global, reader: &mut Reader<'_>, depth: usize) -> Result<Typed, Unread>
    ensures value { Reads (read depth rows.behind_character reader.old) result reader.new }
    ensures within { length reader.new ≤ length reader.old }
{
    if reader.eat_word(b"FUNCTION".as_slice()) {
        return typed_function(alloc, reader, depth);
    }
    let entities = list::<ATextEntity>(alloc, reader, depth)?;
    Ok(Typed::Entities(entities))
}

/// `FUNCTION` name `(` [list(name)] `)`, or [`,`] list(decl [`*` len])
fn behind_length(alloc: Global, reader: &mut Reader<'_>, depth: usize) -> Result<Typed, Unread>
    ensures value { Reads (read depth rows.behind_length reader.old) result reader.new }
    ensures within { length reader.new ≤ length reader.old }
{
    if reader.eat_word(b"FUNCTION".as_slice()) {
        return typed_function(alloc, reader, depth);
    }
    reader.eat_word(b",".as_slice());
    let entities = list::<ATextEntity>(alloc, reader, depth)?;
    Ok(Typed::Entities(entities))
}

/// Declare: `INTEGER` list(decl); Function: `INTEGER` `FUNCTION` name `(` [list(name)] `)`
/// (ANSI X3.9-1978, sections 8.4.1 and 15.5.1)
pub fn integer(alloc: Global, reader: &mut Reader<'_>, depth: usize) -> Result<Stmt, Unread>
    ensures value { Reads (read depth (rule word.Integer) reader.old) result reader.new }
    ensures within { length reader.new ≤ length reader.old }
{
    let behind = behind_type(alloc, reader, depth)?;
    Ok(typed_by(TypeSpec::Integer, behind))
}

/// Declare: `LOGICAL` list(decl); Function: `LOGICAL` `FUNCTION` name `(` [list(name)] `)`
/// (ANSI X3.9-1978, sections 8.4.1 and 15.5.1)
pub fn logical(alloc: Global, reader: &mut Reader<'_>, depth: usize) -> Result<Stmt, Unread>
    ensures value { Reads (read depth (rule word.Logical) reader.old) result reader.new }
    ensures within { length reader.new ≤ length reader.old }
{
    let behind = behind_type(alloc, reader, depth)?;
    Ok(typed_by(TypeSpec::Logical, behind))
}

/// len and what follows it
fn with_length(alloc: Global, reader: &mut Reader<'_>, depth: usize) -> Result<Stmt, Unread>
    ensures value { Reads (read depth rows.with_length reader.old) result reader.new }
    ensures within { length reader.new ≤ length reader.old }
{
    let length = len(alloc, reader, depth)?;
    let behind = behind_length(alloc, reader, depth)?;
    Ok(typed_by(TypeSpec::Character(Some(length)), behind))
}

/// what follows `CHARACTER` alone
fn without_length(alloc: Global, reader: &mut Reader<'_>, depth: usize) -> Result<Stmt, Unread>
    ensures value { Reads (read depth rows.without_length reader.old) result reader.new }
    ensures within { length reader.new ≤ length reader.old }
{
    let behind = behind_character(alloc, reader, depth)?;
    Ok(typed_by(TypeSpec::Character(None), behind))
}

/// Declare: `CHARACTER` [`*` len [`,`]] list(decl [`*` len]); Function: `CHARACTER` [`*` len] `FUNCTION` name
/// `(` [list(name)] `)` (ANSI X3.9-1978, sections 8.4.2 and 15.5.1)
pub fn character(alloc: Global, reader: &mut Reader<'_>, depth: usize) -> Result<Stmt, Unread>
    ensures value { Reads (read depth (rule word.Character) reader.old) result reader.new }
    ensures within { length reader.new ≤ length reader.old }
{
    if reader.eat_word(b"*".as_slice()) {
        with_length(alloc, reader, depth)
    } else {
        without_length(alloc, reader, depth)
    }
}
