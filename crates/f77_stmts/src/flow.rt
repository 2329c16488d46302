//! Statements of control: what follows the first word of each (ANSI X3.9-1978, sections 11 and 15.6).
ghost use Rattle.std.specs.Prelude.{◌≡◌, ◌≤◌, length, IsOkUnless};
ghost use Rattle.f77_exprs.specs.Read.{Reads};
ghost use Rattle.f77_forms.specs.Form.{read};
ghost use Rattle.f77_parts.specs.Parts as parts;
ghost use Rattle.f77_stmts.specs.Rows.{rule};
ghost use Rattle.f77_stmts.specs.declared.keyword.Keyword.TheVariants as word;

use f77_ast::stmt::{Stmt, StopCode};
use f77_exprs::grammar::expr_within;
use f77_exprs::reader::Reader;
use f77_exprs::unread::Unread;
use f77_forms::leaves::{a_constant, a_label, expect_word, some_digits};
use f77_forms::list::list;
use f77_parts::control::control;
use f77_parts::lists::{ALabel, argument_list};
use f77_parts::sees::{sees_any, sees_apostrophe};
use std::alloc::Global;

/// Do: `DO` label [`,`] name `=` expr `,` expr [`,` expr] (ANSI X3.9-1978, section 11.10)
pub fn loop_statement(alloc: Global, reader: &mut Reader<'_>, depth: usize) -> Result<Stmt, Unread>
    ensures value { Reads (read depth (rule word.Do) reader.old) result reader.new }
    ensures within { length reader.new ≤ length reader.old }
{
    let terminal = a_label(reader)?;
    reader.eat_word(b",".as_slice());
    let control = control(alloc, reader, depth)?;
    Ok(Stmt::Do { terminal, control })
}

/// ElseIf: `ELSEIF(` expr `)THEN` (ANSI X3.9-1978, section 11.7)
pub fn else_if(alloc: Global, reader: &mut Reader<'_>, depth: usize) -> Result<Stmt, Unread>
    ensures value { Reads (read depth (rule word.ElseIf) reader.old) result reader.new }
    ensures within { length reader.new ≤ length reader.old }
{
    let condition = expr_within(alloc, reader, depth)?;
    expect_word(reader, b")THEN".as_slice())?;
    Ok(Stmt::ElseIf(condition))
}

/// 1 to 5 digits or a character constant (ANSI X3.9-1978, section 11.12)
fn stop_code(alloc: Global, reader: &mut Reader<'_>) -> Result<StopCode, Unread>
    ensures value { Reads (read 0 parts.stop_code reader.old) result reader.new }
    ensures within { length reader.new ≤ length reader.old }
{
    if sees_apostrophe(reader) {
        let text = a_constant(alloc, reader)?;
        return Ok(StopCode::Chars(text));
    }
    let value = some_digits(reader)?;
    Ok(StopCode::Digits(value))
}

/// [1 to 5 digits or a character constant]
fn stop_codes(alloc: Global, reader: &mut Reader<'_>) -> Result<Option<StopCode>, Unread>
    ensures value { Reads (read 0 parts.stop_codes reader.old) result reader.new }
    ensures within { length reader.new ≤ length reader.old }
{
    if !sees_any(reader) {
        return Ok(None);
    }
    let code = stop_code(alloc, reader)?;
    Ok(Some(code))
}

/// Stop: `STOP` [1 to 5 digits or a character constant] (ANSI X3.9-1978, section 11.12)
pub fn stop(alloc: Global, reader: &mut Reader<'_>) -> Result<Stmt, Unread>
    ensures value { Reads (read 0 (rule word.Stop) reader.old) result reader.new }
    ensures within { length reader.new ≤ length reader.old }
{
    let code = stop_codes(alloc, reader)?;
    Ok(Stmt::Stop(code))
}

/// ComputedGoto: `GOTO(` list(label) `)` [`,`] expr (ANSI X3.9-1978, section 11.2)
pub fn computed_goto(alloc: Global, reader: &mut Reader<'_>, depth: usize) -> Result<Stmt, Unread>
    ensures value { Reads (read depth (rule word.ComputedGoto) reader.old) result reader.new }
    ensures within { length reader.new ≤ length reader.old }
{
    let labels = list::<ALabel>(alloc, reader, depth)?;
    expect_word(reader, b")".as_slice())?;
    reader.eat_word(b",".as_slice());
    let index = expr_within(alloc, reader, depth)?;
    Ok(Stmt::ComputedGoto { labels, index })
}

/// Goto: `GOTO` label (ANSI X3.9-1978, section 11.1)
pub fn goto(reader: &mut Reader<'_>) -> Result<Stmt, Unread>
    ensures value { Reads (read 0 (rule word.Goto) reader.old) result reader.new }
    ensures within { length reader.new ≤ length reader.old }
    ensures err { IsOkUnless result Unread.Unspelled }
{
    let label = a_label(reader)?;
    Ok(Stmt::Goto(label))
}

/// Call: `CALL` name [`(` [list(expr)] `)`] (ANSI X3.9-1978, section 15.6.2.1)
pub fn call(alloc: Global, reader: &mut Reader<'_>, depth: usize) -> Result<Stmt, Unread>
    ensures value { Reads (read depth (rule word.Call) reader.old) result reader.new }
    ensures within { length reader.new ≤ length reader.old }
{
    let name = reader.name()?;
    let args = argument_list(alloc, reader, depth)?;
    Ok(Stmt::Call { name, args })
}
