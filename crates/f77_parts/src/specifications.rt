//! The members of EQUIVALENCE, PARAMETER, IMPLICIT and SAVE (ANSI X3.9-1978, sections 8.2, 8.5, 8.6 and 8.9).
ghost use Rattle.std.specs.Prelude.{◌≡◌, ◌≤◌, ℕ, length, IsOkUnless};
ghost use Rattle.f77_exprs.specs.Read.{Reads};
ghost use Rattle.f77_forms.specs.Form.{read, a_whole_ref};
ghost use Rattle.f77_parts.specs.Parts as parts;

use crate::sees::sees_any;
use crate::types::type_spec;
use f77_ast::expr::Ref;
use f77_ast::specification::{
    EquivalenceGroup, ImplicitRule, LetterRange, NamedConstant, SaveEntry,
};
use f77_exprs::grammar::expr_within;
use f77_exprs::reader::Reader;
use f77_exprs::unread::Unread;
use f77_forms::leaves::{a_letter, a_whole_ref, expect_word};
use f77_forms::list::{Production, list, with_first};
use sqlite_items::Items;
use std::alloc::Global;

/// ref without a substring
pub struct AWholeRef;

impl Production for AWholeRef {
    type Tree = Ref;

    ghost reading = { λ depth. read depth a_whole_ref };

    fn read(alloc: Global, reader: &mut Reader<'_>, depth: usize) -> Result<Ref, Unread> {
        a_whole_ref(alloc, reader, depth)
    }
}

/// ref `,` list(ref), without substrings
fn members(alloc: Global, reader: &mut Reader<'_>, depth: usize) -> Result<Items<Ref>, Unread>
    ensures value { Reads (read depth parts.members reader.old) result reader.new }
    ensures within { length reader.new ≤ length reader.old }
{
    let first = a_whole_ref(alloc, reader, depth)?;
    expect_word(reader, b",".as_slice())?;
    let others = list::<AWholeRef>(alloc, reader, depth)?;
    Ok(with_first(alloc, first, others)?)
}

/// `(` ref `,` list(ref) `)`, without substrings (ANSI X3.9-1978, section 8.2)
fn group(alloc: Global, reader: &mut Reader<'_>, depth: usize) -> Result<EquivalenceGroup, Unread>
    ensures value { Reads (read depth parts.group reader.old) result reader.new }
    ensures within { length reader.new ≤ length reader.old }
{
    expect_word(reader, b"(".as_slice())?;
    let members = members(alloc, reader, depth)?;
    expect_word(reader, b")".as_slice())?;
    Ok(EquivalenceGroup { members })
}

/// `(` ref `,` list(ref) `)`
pub struct AGroup;

impl Production for AGroup {
    type Tree = EquivalenceGroup;

    ghost reading = { λ depth. read depth parts.group };

    fn read(
        alloc: Global,
        reader: &mut Reader<'_>,
        depth: usize,
    ) -> Result<EquivalenceGroup, Unread> {
        group(alloc, reader, depth)
    }
}

/// name `=` expr (ANSI X3.9-1978, section 8.6)
fn named(alloc: Global, reader: &mut Reader<'_>, depth: usize) -> Result<NamedConstant, Unread>
    ensures value { Reads (read depth parts.named reader.old) result reader.new }
    ensures within { length reader.new ≤ length reader.old }
{
    let name = reader.name()?;
    expect_word(reader, b"=".as_slice())?;
    let value = expr_within(alloc, reader, depth)?;
    Ok(NamedConstant { name, value })
}

/// name `=` expr
pub struct ANamed;

impl Production for ANamed {
    type Tree = NamedConstant;

    ghost reading = { λ depth. read depth parts.named };

    fn read(alloc: Global, reader: &mut Reader<'_>, depth: usize) -> Result<NamedConstant, Unread> {
        named(alloc, reader, depth)
    }
}

/// [`-` letter]
fn last_letter(reader: &mut Reader<'_>) -> Result<Option<u8>, Unread>
    ensures value { Reads (read 0 parts.last_letter reader.old) result reader.new }
    ensures within { length reader.new ≤ length reader.old }
    ensures err { IsOkUnless result Unread.Unspelled }
{
    if !reader.eat_word(b"-".as_slice()) {
        return Ok(None);
    }
    let found = a_letter(reader)?;
    Ok(Some(found))
}

/// letter [`-` letter] (ANSI X3.9-1978, section 8.5)
fn range(reader: &mut Reader<'_>) -> Result<LetterRange, Unread>
    ensures value { Reads (read 0 parts.range reader.old) result reader.new }
    ensures within { length reader.new ≤ length reader.old }
    ensures err { IsOkUnless result Unread.Unspelled }
{
    let first = a_letter(reader)?;
    let last = last_letter(reader)?;
    Ok(LetterRange { first, last })
}

/// letter [`-` letter]
pub struct ARange;

impl Production for ARange {
    type Tree = LetterRange;

    ghost reading = { λ depth. read depth parts.range };

    fn read(alloc: Global, reader: &mut Reader<'_>, depth: usize) -> Result<LetterRange, Unread> {
        range(reader)
    }
}

/// typ `(` list(letter [`-` letter]) `)` (ANSI X3.9-1978, section 8.5)
fn implicit_rule(
    alloc: Global,
    reader: &mut Reader<'_>,
    depth: usize,
) -> Result<ImplicitRule, Unread>
    ensures value { Reads (read depth parts.implicit_rule reader.old) result reader.new }
    ensures within { length reader.new ≤ length reader.old }
{
    let typ = type_spec(alloc, reader, depth)?;
    expect_word(reader, b"(".as_slice())?;
    let letters = list::<ARange>(alloc, reader, depth)?;
    expect_word(reader, b")".as_slice())?;
    Ok(ImplicitRule { typ, letters })
}

/// typ `(` list(letter [`-` letter]) `)`
pub struct AnImplicitRule;

impl Production for AnImplicitRule {
    type Tree = ImplicitRule;

    ghost reading = { λ depth. read depth parts.implicit_rule };

    fn read(alloc: Global, reader: &mut Reader<'_>, depth: usize) -> Result<ImplicitRule, Unread> {
        implicit_rule(alloc, reader, depth)
    }
}

/// name or `/` name `/` (ANSI X3.9-1978, section 8.9)
fn save_entry(reader: &mut Reader<'_>) -> Result<SaveEntry, Unread>
    ensures value { Reads (read 0 parts.save_entry reader.old) result reader.new }
    ensures within { length reader.new ≤ length reader.old }
    ensures err { IsOkUnless result Unread.Unspelled }
{
    if reader.eat_word(b"/".as_slice()) {
        let block = reader.name()?;
        expect_word(reader, b"/".as_slice())?;
        return Ok(SaveEntry::Block(block));
    }
    let name = reader.name()?;
    Ok(SaveEntry::Entity(name))
}

/// name or `/` name `/`
pub struct ASaveEntry;

impl Production for ASaveEntry {
    type Tree = SaveEntry;

    ghost reading = { λ depth. read depth parts.save_entry };

    fn read(alloc: Global, reader: &mut Reader<'_>, depth: usize) -> Result<SaveEntry, Unread> {
        save_entry(reader)
    }
}

/// [list(name or `/` name `/`)]
pub fn save_entries(
    alloc: Global,
    reader: &mut Reader<'_>,
    depth: usize,
) -> Result<Items<SaveEntry>, Unread>
    ensures value { Reads (read depth parts.save_entries reader.old) result reader.new }
    ensures within { length reader.new ≤ length reader.old }
{
    if sees_any(reader) {
        list::<ASaveEntry>(alloc, reader, depth)
    } else {
        Ok(Items::new(alloc))
    }
}
