//! Names of type REAL, and names that are used as two things.
ghost use Rattle.std.specs.Prelude.{◌≡◌, IfOk};
ghost use Rattle.std.specs.List.{list_any};
ghost use Rattle.f77_ast.specs.Refusal.{first_of};
ghost use Rattle.f77_uses.specs.Breaks as spec;
ghost use Rattle.f77_uses.specs.Refused.{broken_by};
ghost use Rattle.f77_uses.specs.Tables.{told_by};
ghost use Rattle.f77_uses.specs.UseTables.{uses_in};
ghost use Rattle.f77_uses.specs.Uses.{on_name};

use crate::breaks::refused_if;
use crate::tables::Tables;
use crate::use_table::UseTable;
use crate::uses::{differ, use_of};
use f77_ast::program::Listed;
use f77_ast::refusal::{Refusal, sooner};
use f77_ast::rule::Rule;
use f77_leaves::leaves::{Leaf, Mention, Role, leaves_of};
use hyb_base::no_memory::NoMemory;
use std::alloc::Global;

/// Whether a mention is of a name, and not of a common block's.
pub fn is_name(role: Role) -> bool
    ensures { result ≡ spec.is_name role }
{
    match role {
        Role::Heading => true,
        Role::Function => true,
        Role::Dummy => true,
        Role::Typed => true,
        Role::Shaped => true,
        Role::Common => true,
        Role::Block => false,
        Role::Member => true,
        Role::Filled => true,
        Role::Constant => true,
        Role::Repeat => true,
        Role::Datum => true,
        Role::Saved => true,
        Role::Called => true,
        Role::Target => true,
        Role::Input => true,
        Role::Control => true,
        Role::Operand => true,
    }
}

/// Whether a mention is of a variable, array, dummy argument, result or constant without a type, which would be REAL.
fn is_real(tables: &Tables, uses: &UseTable, mention: &Mention) -> bool
    ensures { result ≡ spec.is_real (told_by tables.now) (uses_in uses.now) mention.now }
{
    is_name(mention.role)
        && tables.kind_of(&mention.name).is_none()
        && uses.is_entity(&mention.name)
}

/// The same of what is in a statement.
fn is_real_leaf(tables: &Tables, uses: &UseTable, leaf: &Leaf) -> bool
    ensures { result ≡ on_name (spec.is_real (told_by tables.now) (uses_in uses.now)) leaf.now }
{
    match leaf {
        Leaf::Literal => false,
        Leaf::Text(_) => false,
        Leaf::Named(mention) => is_real(tables, uses, mention),
    }
}

/// Whether there is such a name in a statement.
fn has_real(tables: &Tables, uses: &UseTable, leaves: &[Leaf]) -> bool
    ensures { result ≡ list_any (on_name (spec.is_real (told_by tables.now) (uses_in uses.now))) leaves.now }
{
    leaves.iter().any(|leaf| is_real_leaf(tables, uses, leaf))
}

/// RealName: the first statement of a unit in which there is such a name.
pub fn real_name(
    alloc: Global,
    unit: &[Listed],
    tables: &Tables,
    uses: &UseTable,
) -> Result<Option<Refusal>, NoMemory>
    ensures { IfOk result (λ first. first ≡ first_of (broken_by Rule.RealName (spec.names_real (told_by tables.now) (uses_in uses.now)) 0 unit.now)) }
{
    let mut first = None;
    for listed in unit {
        let leaves = leaves_of(alloc, &listed.stmt)?;
        let breaks = has_real(tables, uses, leaves.as_slice());
        first = sooner(first, refused_if(breaks, listed, Rule::RealName));
    }
    Ok(first)
}

/// Whether a mention uses a name as something else than its first use in the unit.
fn is_second_use(tables: &Tables, uses: &UseTable, mention: &Mention) -> bool
    ensures { result ≡ spec.is_second_use (told_by tables.now) (uses_in uses.now) mention.now }
{
    differ(use_of(tables, mention), uses.first(&mention.name))
}

/// The same of what is in a statement.
fn is_second_leaf(tables: &Tables, uses: &UseTable, leaf: &Leaf) -> bool
    ensures { result ≡ on_name (spec.is_second_use (told_by tables.now) (uses_in uses.now)) leaf.now }
{
    match leaf {
        Leaf::Literal => false,
        Leaf::Text(_) => false,
        Leaf::Named(mention) => is_second_use(tables, uses, mention),
    }
}

/// Whether there is such a name in a statement.
fn has_second_use(tables: &Tables, uses: &UseTable, leaves: &[Leaf]) -> bool
    ensures { result ≡ list_any (on_name (spec.is_second_use (told_by tables.now) (uses_in uses.now))) leaves.now }
{
    leaves.iter().any(|leaf| is_second_leaf(tables, uses, leaf))
}

/// DoubleName: the first statement of a unit in which there is such a name.
pub fn second_use(
    alloc: Global,
    unit: &[Listed],
    tables: &Tables,
    uses: &UseTable,
) -> Result<Option<Refusal>, NoMemory>
    ensures { IfOk result (λ first. first ≡ first_of (broken_by Rule.DoubleName (spec.uses_twice (told_by tables.now) (uses_in uses.now)) 0 unit.now)) }
{
    let mut first = None;
    for listed in unit {
        let leaves = leaves_of(alloc, &listed.stmt)?;
        let breaks = has_second_use(tables, uses, leaves.as_slice());
        first = sooner(first, refused_if(breaks, listed, Rule::DoubleName));
    }
    Ok(first)
}
