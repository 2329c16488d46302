//! READ and PRINT: what follows the first word of each (ANSI X3.9-1978, section 12.8).
ghost use Rattle.std.specs.Prelude.{◌≡◌, ◌≤◌, length};
ghost use Rattle.f77_exprs.specs.Read.{Reads};
ghost use Rattle.f77_forms.specs.Form.{read};
ghost use Rattle.f77_stmts.specs.Rows.{rule};
ghost use Rattle.f77_stmts.specs.Rows as rows;
ghost use Rattle.f77_stmts.specs.declared.keyword.Keyword.TheVariants as word;

use f77_ast::stmt::{Item, Stmt};
use f77_exprs::reader::Reader;
use f77_exprs::unread::Unread;
use f77_forms::leaves::expect_word;
use f77_parts::items::list_of_items;
use f77_parts::sees::sees_any;
use sqlite_items::Items;
use std::alloc::Global;

/// [`,` list(item)]
fn printed(alloc: Global, reader: &mut Reader<'_>, depth: usize) -> Result<Items<Item>, Unread>
    ensures value { Reads (read depth rows.printed reader.old) result reader.new }
    ensures within { length reader.new ≤ length reader.old }
{
    if !sees_any(reader) {
        return Ok(Items::new(alloc));
    }
    expect_word(reader, b",".as_slice())?;
    list_of_items(alloc, reader, depth, false)
}

/// [list(item)]
fn written(alloc: Global, reader: &mut Reader<'_>, depth: usize) -> Result<Items<Item>, Unread>
    ensures value { Reads (read depth rows.written reader.old) result reader.new }
    ensures within { length reader.new ≤ length reader.old }
{
    if !sees_any(reader) {
        return Ok(Items::new(alloc));
    }
    list_of_items(alloc, reader, depth, false)
}

/// Print: `PRINT*` [`,` list(item)] (ANSI X3.9-1978, section 12.8)
pub fn print(alloc: Global, reader: &mut Reader<'_>, depth: usize) -> Result<Stmt, Unread>
    ensures value { Reads (read depth (rule word.Print) reader.old) result reader.new }
    ensures within { length reader.new ≤ length reader.old }
{
    let all = printed(alloc, reader, depth)?;
    Ok(Stmt::Print(all))
}

/// Print: `WRITE(*,*)` [list(item)] (ANSI X3.9-1978, section 12.8)
pub fn write(alloc: Global, reader: &mut Reader<'_>, depth: usize) -> Result<Stmt, Unread>
    ensures value { Reads (read depth (rule word.Write) reader.old) result reader.new }
    ensures within { length reader.new ≤ length reader.old }
{
    let all = written(alloc, reader, depth)?;
    Ok(Stmt::Print(all))
}

/// Read: `READ*,` list(item), whose plain items are refs (ANSI X3.9-1978, section 12.8)
pub fn read_list(alloc: Global, reader: &mut Reader<'_>, depth: usize) -> Result<Stmt, Unread>
    ensures value { Reads (read depth (rule word.ReadList) reader.old) result reader.new }
    ensures within { length reader.new ≤ length reader.old }
{
    let all = list_of_items(alloc, reader, depth, true)?;
    Ok(Stmt::Read(all))
}

/// Read: `READ(*,*)` list(item), whose plain items are refs (ANSI X3.9-1978, section 12.8)
pub fn read_unit(alloc: Global, reader: &mut Reader<'_>, depth: usize) -> Result<Stmt, Unread>
    ensures value { Reads (read depth (rule word.ReadUnit) reader.old) result reader.new }
    ensures within { length reader.new ≤ length reader.old }
{
    let all = list_of_items(alloc, reader, depth, true)?;
    Ok(Stmt::Read(all))
}
