//! The groups of COMMON (ANSI X3.9-1978, section 8.3).
ghost use Rattle.std.specs.Prelude.{◌≡◌, ◌≤◌, ◌∷◌, [], length, IfOk, IsOkUnless};
ghost use Rattle.f77_exprs.specs.Read.{Reads};
ghost use Rattle.f77_forms.specs.Form.{read};
ghost use Rattle.f77_parts.specs.Parts as parts;

use crate::declarators::decl;
use f77_ast::name::Name;
use f77_ast::specification::{CommonGroup, Declarator};
use f77_exprs::reader::Reader;
use f77_exprs::unread::Unread;
use f77_forms::leaves::expect_word;
use hyb_base::no_memory::NoMemory;
use sqlite_items::Items;
use std::alloc::Global;

/// What follows a member.
#[derive(Drop)]
pub enum CommonStep {
    /// A member of the same group.
    Member(Declarator),
    /// The block of another group, and its first member.
    Group(Option<Name>, Declarator),
}

/// what follows `/`: [name] `/`
fn block_name(reader: &mut Reader<'_>) -> Result<Option<Name>, Unread>
    ensures value { Reads (read 0 parts.block_name reader.old) result reader.new }
    ensures within { length reader.new ≤ length reader.old }
    ensures err { IsOkUnless result Unread.Unspelled }
{
    if reader.eat_word(b"/".as_slice()) {
        return Ok(None);
    }
    let name = reader.name()?;
    expect_word(reader, b"/".as_slice())?;
    Ok(Some(name))
}

/// [`/` [name] `/`]
fn first_block(reader: &mut Reader<'_>) -> Result<Option<Name>, Unread>
    ensures value { Reads (read 0 parts.first_block reader.old) result reader.new }
    ensures within { length reader.new ≤ length reader.old }
    ensures err { IsOkUnless result Unread.Unspelled }
{
    if !reader.eat_word(b"/".as_slice()) {
        return Ok(None);
    }
    block_name(reader)
}

/// what follows `/`: [name] `/` and the first member of another group
fn new_group(alloc: Global, reader: &mut Reader<'_>, depth: usize) -> Result<CommonStep, Unread>
    ensures value { Reads (read depth parts.new_group reader.old) result reader.new }
    ensures within { length reader.new ≤ length reader.old }
{
    let block = block_name(reader)?;
    let member = decl(alloc, reader, depth)?;
    Ok(CommonStep::Group(block, member))
}

/// a member of the same group
fn same_group(alloc: Global, reader: &mut Reader<'_>, depth: usize) -> Result<CommonStep, Unread>
    ensures value { Reads (read depth parts.same_group reader.old) result reader.new }
    ensures within { length reader.new ≤ length reader.old }
{
    let member = decl(alloc, reader, depth)?;
    Ok(CommonStep::Member(member))
}

/// what follows `,`: `/` [name] `/` and the first member of another group, or a member of the same
fn behind_comma(alloc: Global, reader: &mut Reader<'_>, depth: usize) -> Result<CommonStep, Unread>
    ensures value { Reads (read depth parts.behind_comma reader.old) result reader.new }
    ensures within { length reader.new ≤ length reader.old }
{
    if reader.eat_word(b"/".as_slice()) {
        return new_group(alloc, reader, depth);
    }
    same_group(alloc, reader, depth)
}

/// what follows a member: `,` and a member of the same group; or [`,`] `/` [name] `/` and the first member of
/// another
fn common_step(alloc: Global, reader: &mut Reader<'_>, depth: usize) -> Result<CommonStep, Unread>
    ensures value { Reads (read depth parts.common_step reader.old) result reader.new }
    ensures within { length reader.new ≤ length reader.old }
{
    if reader.eat_word(b"/".as_slice()) {
        return new_group(alloc, reader, depth);
    }
    expect_word(reader, b",".as_slice())?;
    behind_comma(alloc, reader, depth)
}

/// A group of one member.
fn group_of(alloc: Global, block: Option<Name>, member: Declarator) -> Result<CommonGroup, NoMemory>
    ensures { IfOk result (λ g. g ≡ record { block = block; members = member ∷ [] }) }
{
    let mut members = Items::new(alloc);
    members.push(member)?;
    Ok(CommonGroup { block, members })
}

/// The groups before the last, and the last, with one member more.
fn advanced(
    alloc: Global,
    before: Items<CommonGroup>,
    last: CommonGroup,
    one: CommonStep,
) -> Result<(Items<CommonGroup>, CommonGroup), NoMemory>
    ensures { IfOk result (λ g. g ≡ parts.advanced (before, last) one) }
{
    match one {
        CommonStep::Member(member) => {
            let mut last = last;
            last.members.push(member)?;
            Ok((before, last))
        }
        CommonStep::Group(block, member) => {
            let mut before = before;
            before.push(last)?;
            Ok((before, group_of(alloc, block, member)?))
        }
    }
}

/// The last group after the others.
fn closed(before: Items<CommonGroup>, last: CommonGroup) -> Result<Items<CommonGroup>, NoMemory>
    ensures { IfOk result (λ all. all ≡ parts.groups_of (before, last) []) }
{
    let mut before = before;
    before.push(last)?;
    Ok(before)
}

/// The groups, of which the first member is read.
fn later(
    alloc: Global,
    reader: &mut Reader<'_>,
    depth: usize,
    first: CommonGroup,
) -> Result<Items<CommonGroup>, Unread>
    ensures value { Reads (parts.later_groups depth first reader.old) result reader.new }
    ensures within { length reader.new ≤ length reader.old }
{
    let turns = reader.rest().len();
    let mut before = Items::new(alloc);
    let mut last = first;
    for _turn in 0..turns {
        if reader.is_empty() {
            return Ok(closed(before, last)?);
        }
        let one = common_step(alloc, reader, depth)?;
        let (more, next) = advanced(alloc, before, last, one)?;
        before = more;
        last = next;
    }
    Ok(closed(before, last)?)
}

/// groups [`/` [name] `/`] list(decl), with [`,`] between, of which only the first may lack its slashes
/// (ANSI X3.9-1978, section 8.3)
pub fn common_groups(
    alloc: Global,
    reader: &mut Reader<'_>,
    depth: usize,
) -> Result<Items<CommonGroup>, Unread>
    ensures value { Reads (read depth parts.common_groups reader.old) result reader.new }
    ensures within { length reader.new ≤ length reader.old }
{
    let block = first_block(reader)?;
    let member = decl(alloc, reader, depth)?;
    let first = group_of(alloc, block, member)?;
    later(alloc, reader, depth, first)
}
