//! Declarators: names with their dimensions and lengths (ANSI X3.9-1978, sections 5.1.1 and 8.1).
ghost use Rattle.std.specs.Prelude.{◌≡◌, ◌≤◌, length};
ghost use Rattle.f77_exprs.specs.Read.{Reads};
ghost use Rattle.f77_forms.specs.Form.{read};
ghost use Rattle.f77_parts.specs.Parts as parts;

use crate::types::len_option;
use f77_ast::expr::Expr;
use f77_ast::specification::{Bound, Declarator, TypedDeclarator};
use f77_exprs::grammar::expr_within;
use f77_exprs::reader::Reader;
use f77_exprs::unread::Unread;
use f77_forms::leaves::expect_word;
use f77_forms::list::{Production, list};
use sqlite_items::Items;
use std::alloc::Global;

/// `*`, or expr
fn upper(alloc: Global, reader: &mut Reader<'_>, depth: usize) -> Result<Option<Expr>, Unread>
    ensures value { Reads (read depth parts.upper reader.old) result reader.new }
    ensures within { length reader.new ≤ length reader.old }
{
    if reader.eat_word(b"*".as_slice()) {
        return Ok(None);
    }
    let found = expr_within(alloc, reader, depth)?;
    Ok(Some(found))
}

/// [`:` and `*`, or expr]
fn upper_option(
    alloc: Global,
    reader: &mut Reader<'_>,
    depth: usize,
) -> Result<Option<Option<Expr>>, Unread>
    ensures value { Reads (read depth parts.upper_option reader.old) result reader.new }
    ensures within { length reader.new ≤ length reader.old }
{
    if !reader.eat_word(b":".as_slice()) {
        return Ok(None);
    }
    let found = upper(alloc, reader, depth)?;
    Ok(Some(found))
}

/// The bound of what is in it.
fn bound_of(first: Expr, behind: Option<Option<Expr>>) -> Bound
    ensures { result ≡ parts.bound_of (first, behind) }
{
    match behind {
        None => Bound {
            low: None,
            high: Some(first),
        },
        Some(high) => Bound {
            low: Some(first),
            high,
        },
    }
}

/// bound: [expr `:`] expr or [expr `:`] `*` (ANSI X3.9-1978, section 5.1.1.1)
fn bound(alloc: Global, reader: &mut Reader<'_>, depth: usize) -> Result<Bound, Unread>
    ensures value { Reads (read depth parts.bound reader.old) result reader.new }
    ensures within { length reader.new ≤ length reader.old }
{
    if reader.eat_word(b"*".as_slice()) {
        return Ok(Bound {
            low: None,
            high: None,
        });
    }
    let first = expr_within(alloc, reader, depth)?;
    let behind = upper_option(alloc, reader, depth)?;
    Ok(bound_of(first, behind))
}

/// bound
pub struct ABound;

impl Production for ABound {
    type Tree = Bound;

    ghost reading = { λ depth. read depth parts.bound };

    fn read(alloc: Global, reader: &mut Reader<'_>, depth: usize) -> Result<Bound, Unread> {
        bound(alloc, reader, depth)
    }
}

/// list(bound) `)`
fn bounds(alloc: Global, reader: &mut Reader<'_>, depth: usize) -> Result<Items<Bound>, Unread>
    ensures value { Reads (read depth parts.bounds reader.old) result reader.new }
    ensures within { length reader.new ≤ length reader.old }
{
    let found = list::<ABound>(alloc, reader, depth)?;
    expect_word(reader, b")".as_slice())?;
    Ok(found)
}

/// [`(` list(bound) `)`]
fn bound_list(alloc: Global, reader: &mut Reader<'_>, depth: usize) -> Result<Items<Bound>, Unread>
    ensures value { Reads (read depth parts.bound_list reader.old) result reader.new }
    ensures within { length reader.new ≤ length reader.old }
{
    if reader.eat_word(b"(".as_slice()) {
        bounds(alloc, reader, depth)
    } else {
        Ok(Items::new(alloc))
    }
}

/// decl: name [`(` list(bound) `)`] (ANSI X3.9-1978, sections 5.1.1 and 8.1)
pub fn decl(alloc: Global, reader: &mut Reader<'_>, depth: usize) -> Result<Declarator, Unread>
    ensures value { Reads (read depth parts.decl reader.old) result reader.new }
    ensures within { length reader.new ≤ length reader.old }
{
    let name = reader.name()?;
    let bounds = bound_list(alloc, reader, depth)?;
    Ok(Declarator { name, bounds })
}

/// name `(` list(bound) `)` (ANSI X3.9-1978, section 8.1)
fn array(alloc: Global, reader: &mut Reader<'_>, depth: usize) -> Result<Declarator, Unread>
    ensures value { Reads (read depth parts.array reader.old) result reader.new }
    ensures within { length reader.new ≤ length reader.old }
{
    let name = reader.name()?;
    expect_word(reader, b"(".as_slice())?;
    let bounds = bounds(alloc, reader, depth)?;
    Ok(Declarator { name, bounds })
}

/// decl, of a type without lengths
fn entity(alloc: Global, reader: &mut Reader<'_>, depth: usize) -> Result<TypedDeclarator, Unread>
    ensures value { Reads (read depth parts.entity reader.old) result reader.new }
    ensures within { length reader.new ≤ length reader.old }
{
    let declarator = decl(alloc, reader, depth)?;
    Ok(TypedDeclarator {
        declarator,
        length: None,
    })
}

/// decl [`*` len] (ANSI X3.9-1978, section 8.4.2)
fn text_entity(
    alloc: Global,
    reader: &mut Reader<'_>,
    depth: usize,
) -> Result<TypedDeclarator, Unread>
    ensures value { Reads (read depth parts.text_entity reader.old) result reader.new }
    ensures within { length reader.new ≤ length reader.old }
{
    let declarator = decl(alloc, reader, depth)?;
    let length = len_option(alloc, reader, depth)?;
    Ok(TypedDeclarator { declarator, length })
}

/// name `(` list(bound) `)`
pub struct AnArray;

impl Production for AnArray {
    type Tree = Declarator;

    ghost reading = { λ depth. read depth parts.array };

    fn read(alloc: Global, reader: &mut Reader<'_>, depth: usize) -> Result<Declarator, Unread> {
        array(alloc, reader, depth)
    }
}

/// decl, of a type without lengths
pub struct AnEntity;

impl Production for AnEntity {
    type Tree = TypedDeclarator;

    ghost reading = { λ depth. read depth parts.entity };

    fn read(
        alloc: Global,
        reader: &mut Reader<'_>,
        depth: usize,
    ) -> Result<TypedDeclarator, Unread> {
        entity(alloc, reader, depth)
    }
}

/// decl [`*` len]
pub struct ATextEntity;

impl Production for ATextEntity {
    type Tree = TypedDeclarator;

    ghost reading = { λ depth. read depth parts.text_entity };

    fn read(
        alloc: Global,
        reader: &mut Reader<'_>,
        depth: usize,
    ) -> Result<TypedDeclarator, Unread> {
        text_entity(alloc, reader, depth)
    }
}
