//! Lists of names, labels and expressions, in parentheses.
ghost use Rattle.std.specs.Prelude.{◌≡◌, ◌≤◌, length};
ghost use Rattle.f77_exprs.specs.Read.{Reads};
ghost use Rattle.f77_forms.specs.Form.{read};
ghost use Rattle.f77_forms.specs.Form as form;
ghost use Rattle.f77_parts.specs.Parts as parts;

use f77_ast::expr::Expr;
use f77_ast::name::Name;
use f77_ast::stmt::Label;
use f77_exprs::grammar::expr_within;
use f77_exprs::reader::Reader;
use f77_exprs::unread::Unread;
use f77_forms::leaves::{a_label, expect_word};
use f77_forms::list::{Production, list};
use sqlite_items::Items;
use std::alloc::Global;

/// name
pub struct AName;

impl Production for AName {
    type Tree = Name;

    ghost reading = { λ depth. read depth form.a_name };

    fn read(alloc: Global, reader: &mut Reader<'_>, depth: usize) -> Result<Name, Unread> {
        reader.name()
    }
}

/// label
pub struct ALabel;

impl Production for ALabel {
    type Tree = Label;

    ghost reading = { λ depth. read depth form.a_label };

    fn read(alloc: Global, reader: &mut Reader<'_>, depth: usize) -> Result<Label, Unread> {
        a_label(reader)
    }
}

/// expr
pub struct AnExpr;

impl Production for AnExpr {
    type Tree = Expr;

    ghost reading = { λ depth. read depth form.an_expr };

    fn read(alloc: Global, reader: &mut Reader<'_>, depth: usize) -> Result<Expr, Unread> {
        expr_within(alloc, reader, depth)
    }
}

/// list(name) `)`, or `)` alone
pub fn dummies(alloc: Global, reader: &mut Reader<'_>, depth: usize) -> Result<Items<Name>, Unread>
    ensures value { Reads (read depth parts.dummies reader.old) result reader.new }
    ensures within { length reader.new ≤ length reader.old }
{
    if reader.eat_word(b")".as_slice()) {
        return Ok(Items::new(alloc));
    }
    let found = list::<AName>(alloc, reader, depth)?;
    expect_word(reader, b")".as_slice())?;
    Ok(found)
}

/// [`(` [list(name)] `)`]
pub fn dummy_list(
    alloc: Global,
    reader: &mut Reader<'_>,
    depth: usize,
) -> Result<Items<Name>, Unread>
    ensures value { Reads (read depth parts.dummy_list reader.old) result reader.new }
    ensures within { length reader.new ≤ length reader.old }
{
    if reader.eat_word(b"(".as_slice()) {
        dummies(alloc, reader, depth)
    } else {
        Ok(Items::new(alloc))
    }
}

/// list(expr) `)`, or `)` alone
fn arguments(alloc: Global, reader: &mut Reader<'_>, depth: usize) -> Result<Items<Expr>, Unread>
    ensures value { Reads (read depth parts.arguments reader.old) result reader.new }
    ensures within { length reader.new ≤ length reader.old }
{
    if reader.eat_word(b")".as_slice()) {
        return Ok(Items::new(alloc));
    }
    let found = list::<AnExpr>(alloc, reader, depth)?;
    expect_word(reader, b")".as_slice())?;
    Ok(found)
}

/// [`(` [list(expr)] `)`]
pub fn argument_list(
    alloc: Global,
    reader: &mut Reader<'_>,
    depth: usize,
) -> Result<Items<Expr>, Unread>
    ensures value { Reads (read depth parts.argument_list reader.old) result reader.new }
    ensures within { length reader.new ≤ length reader.old }
{
    if reader.eat_word(b"(".as_slice()) {
        arguments(alloc, reader, depth)
    } else {
        Ok(Items::new(alloc))
    }
}
