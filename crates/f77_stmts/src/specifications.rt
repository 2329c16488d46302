//! Specification statements and DATA: what follows the first word of each (ANSI X3.9-1978, sections 8 and 9.1).
ghost use Rattle.std.specs.Prelude.{◌≡◌, ◌≤◌, length};
ghost use Rattle.f77_exprs.specs.Read.{Reads};
ghost use Rattle.f77_forms.specs.Form.{read};
ghost use Rattle.f77_stmts.specs.Rows.{rule};
ghost use Rattle.f77_stmts.specs.declared.keyword.Keyword.TheVariants as word;

use f77_ast::stmt::Stmt;
use f77_exprs::reader::Reader;
use f77_exprs::unread::Unread;
use f77_forms::leaves::expect_word;
use f77_forms::list::list;
use f77_parts::common::common_groups;
use f77_parts::data::data_groups;
use f77_parts::declarators::AnArray;
use f77_parts::specifications::{AGroup, ANamed, AnImplicitRule, save_entries};
use std::alloc::Global;

/// Dimension: `DIMENSION` list(name `(` list(bound) `)`) (ANSI X3.9-1978, section 8.1)
pub fn dimension(alloc: Global, reader: &mut Reader<'_>, depth: usize) -> Result<Stmt, Unread>
    ensures value { Reads (read depth (rule word.Dimension) reader.old) result reader.new }
    ensures within { length reader.new ≤ length reader.old }
{
    let arrays = list::<AnArray>(alloc, reader, depth)?;
    Ok(Stmt::Dimension(arrays))
}

/// Common: `COMMON` and groups [`/` [name] `/`] list(decl), with [`,`] between; only the first may lack its slashes
/// (ANSI X3.9-1978, section 8.3)
pub fn common(alloc: Global, reader: &mut Reader<'_>, depth: usize) -> Result<Stmt, Unread>
    ensures value { Reads (read depth (rule word.Common) reader.old) result reader.new }
    ensures within { length reader.new ≤ length reader.old }
{
    let groups = common_groups(alloc, reader, depth)?;
    Ok(Stmt::Common(groups))
}

/// Equivalence: `EQUIVALENCE` list of `(` ref `,` list(ref) `)`, without substrings (ANSI X3.9-1978, section 8.2)
pub fn equivalence(alloc: Global, reader: &mut Reader<'_>, depth: usize) -> Result<Stmt, Unread>
    ensures value { Reads (read depth (rule word.Equivalence) reader.old) result reader.new }
    ensures within { length reader.new ≤ length reader.old }
{
    let groups = list::<AGroup>(alloc, reader, depth)?;
    Ok(Stmt::Equivalence(groups))
}

/// Parameter: `PARAMETER(` list(name `=` expr) `)` (ANSI X3.9-1978, section 8.6)
pub fn parameter(alloc: Global, reader: &mut Reader<'_>, depth: usize) -> Result<Stmt, Unread>
    ensures value { Reads (read depth (rule word.Parameter) reader.old) result reader.new }
    ensures within { length reader.new ≤ length reader.old }
{
    let constants = list::<ANamed>(alloc, reader, depth)?;
    expect_word(reader, b")".as_slice())?;
    Ok(Stmt::Parameter(constants))
}

/// Implicit: `IMPLICIT` list of typ `(` list(letter [`-` letter]) `)` (ANSI X3.9-1978, section 8.5)
pub fn implicit(alloc: Global, reader: &mut Reader<'_>, depth: usize) -> Result<Stmt, Unread>
    ensures value { Reads (read depth (rule word.Implicit) reader.old) result reader.new }
    ensures within { length reader.new ≤ length reader.old }
{
    let rules = list::<AnImplicitRule>(alloc, reader, depth)?;
    Ok(Stmt::Implicit(rules))
}

/// Save: `SAVE` [list(name or `/` name `/`)] (ANSI X3.9-1978, section 8.9)
pub fn save(alloc: Global, reader: &mut Reader<'_>, depth: usize) -> Result<Stmt, Unread>
    ensures value { Reads (read depth (rule word.Save) reader.old) result reader.new }
    ensures within { length reader.new ≤ length reader.old }
{
    let entries = save_entries(alloc, reader, depth)?;
    Ok(Stmt::Save(entries))
}

/// Init: `DATA` and groups list(ref) `/` list([repeat `*`] const) `/`, with [`,`] between, without substrings
/// (ANSI X3.9-1978, section 9.1)
pub fn init(alloc: Global, reader: &mut Reader<'_>, depth: usize) -> Result<Stmt, Unread>
    ensures value { Reads (read depth (rule word.Data) reader.old) result reader.new }
    ensures within { length reader.new ≤ length reader.old }
{
    let groups = data_groups(alloc, reader, depth)?;
    Ok(Stmt::Init(groups))
}
