//! The control of loops.
ghost use Rattle.std.specs.Prelude.{◌≡◌, ◌≤◌, length};
ghost use Rattle.f77_exprs.specs.Read.{Reads};
ghost use Rattle.f77_forms.specs.Form.{read};
ghost use Rattle.f77_parts.specs.Parts as spec;

use f77_ast::expr::Expr;
use f77_ast::stmt::LoopControl;
use f77_exprs::grammar::expr_within;
use f77_exprs::reader::Reader;
use f77_exprs::unread::Unread;
use f77_forms::leaves::expect_word;
use std::alloc::Global;

/// [`,` expr]
fn increment(alloc: Global, reader: &mut Reader<'_>, depth: usize) -> Result<Option<Expr>, Unread>
    ensures value { Reads (read depth spec.increment reader.old) result reader.new }
    ensures within { length reader.new ≤ length reader.old }
{
    if !reader.eat_word(b",".as_slice()) {
        return Ok(None);
    }
    let found = expr_within(alloc, reader, depth)?;
    Ok(Some(found))
}

/// name `=` expr `,` expr [`,` expr] (ANSI X3.9-1978, sections 11.10 and 12.8.2.3)
pub fn control(alloc: Global, reader: &mut Reader<'_>, depth: usize) -> Result<LoopControl, Unread>
    ensures value { Reads (read depth spec.control reader.old) result reader.new }
    ensures within { length reader.new ≤ length reader.old }
{
    let variable = reader.name()?;
    expect_word(reader, b"=".as_slice())?;
    let first = expr_within(alloc, reader, depth)?;
    expect_word(reader, b",".as_slice())?;
    let last = expr_within(alloc, reader, depth)?;
    let increment = increment(alloc, reader, depth)?;
    Ok(LoopControl {
        variable,
        first,
        last,
        increment,
    })
}
