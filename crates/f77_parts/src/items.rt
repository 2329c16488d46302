//! The items of READ and PRINT (ANSI X3.9-1978, sections 12.8.2 and 12.8.2.3).
ghost use Rattle.std.specs.Prelude.{◌≡◌, ◌≤◌, ◌<◌, ◌-◌, length};
ghost use Rattle.f77_exprs.specs.Read.{Reads};
ghost use Rattle.f77_forms.specs.Form.{read};
ghost use Rattle.f77_parts.specs.Items as items;

use crate::control::control;
use f77_ast::expr::Expr;
use f77_ast::stmt::Item;
use f77_exprs::grammar::expr_within;
use f77_exprs::reader::{Reader, alphanumerics};
use f77_exprs::unread::Unread;
use f77_forms::depth::has_at_depth;
use f77_forms::leaves::{a_ref, expect_word};
use sqlite_items::Items;
use std::alloc::Global;

/// A plain item: a ref of READ, an expr of PRINT.
fn plain(alloc: Global, reader: &mut Reader<'_>, depth: usize, refs: bool) -> Result<Expr, Unread>
    ensures value { Reads (read depth (items.plain refs) reader.old) result reader.new }
    ensures within { length reader.new ≤ length reader.old }
{
    if refs {
        let found = a_ref(alloc, reader, depth)?;
        return Ok(Expr::Ref(found));
    }
    expr_within(alloc, reader, depth)
}

/// Whether a text begins with letters and digits, or nothing, and then `=`.
pub fn is_control(text: &[u8]) -> bool
    ensures { result ≡ items.is_control text.now }
{
    let (_, behind) = text.split_at(alphanumerics(text));
    matches!(behind, [b'=', ..])
}

/// Whether a text begins with parentheses that hold a comma.
fn is_implied(text: &[u8]) -> bool
    ensures { result ≡ items.is_implied text.now }
{
    matches!(text, [b'(', ..]) && has_at_depth(b',', 1, text)
}

/// Whether a comma comes next, and after it another item.
fn goes_on(text: &[u8]) -> bool
    ensures { result ≡ items.goes_on text.now }
{
    match text {
        [b',', behind @ ..] => !is_control(behind),
        _ => false,
    }
}

/// `(` list(item) `,` name `=` expr `,` expr [`,` expr] `)` (ANSI X3.9-1978, section 12.8.2.3)
#[cycle(items)]
fn implied(alloc: Global, reader: &mut Reader<'_>, depth: usize, refs: bool) -> Result<Item, Unread>
    requires { 0 < depth }
    ensures value { Reads (items.implied depth (items.items_within refs (depth - 1)) reader.old) result reader.new }
    ensures within { length reader.new ≤ length reader.old }
{
    expect_word(reader, b"(".as_slice())?;
    let all = list_of_items(alloc, reader, depth - 1, refs)?;
    expect_word(reader, b",".as_slice())?;
    let control = control(alloc, reader, depth)?;
    expect_word(reader, b")".as_slice())?;
    Ok(Item::Implied(all, control))
}

/// item: expr, of READ ref; or an implied-DO list
#[cycle(items)]
fn item(alloc: Global, reader: &mut Reader<'_>, depth: usize, refs: bool) -> Result<Item, Unread>
    requires { 0 < depth }
    ensures value { Reads (items.item_of refs depth (items.items_within refs (depth - 1)) reader.old) result reader.new }
    ensures within { length reader.new ≤ length reader.old }
{
    if is_implied(reader.rest()) {
        return implied(alloc, reader, depth, refs);
    }
    let found = plain(alloc, reader, depth, refs)?;
    Ok(Item::Plain(found))
}

/// list(item): one or more, with commas between (ANSI X3.9-1978, section 12.8.2)
#[cycle(items)]
pub fn list_of_items(
    alloc: Global,
    reader: &mut Reader<'_>,
    depth: usize,
    refs: bool,
) -> Result<Items<Item>, Unread>
    ensures value { Reads (items.items_within refs depth reader.old) result reader.new }
    ensures within { length reader.new ≤ length reader.old }
{
    if depth == 0 {
        return Err(Unread::Unspelled);
    }
    let first = item(alloc, reader, depth, refs)?;
    let mut found = Items::new(alloc);
    found.push(first)?;
    while goes_on(reader.rest()) {
        reader.eat(b',');
        let next = item(alloc, reader, depth, refs)?;
        found.push(next)?;
    }
    Ok(found)
}
