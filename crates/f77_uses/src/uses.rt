//! What a unit uses a name as (ANSI X3.9-1978, sections 2.2 and 18.2).
ghost use Rattle.std.specs.Prelude.{◌≡◌};
ghost use Rattle.f77_uses.specs.Tables.{told_by};
ghost use Rattle.f77_uses.specs.Uses as spec;

use crate::tables::Tables;
use f77_ast::name::Name;
use f77_leaves::leaves::{Mention, Role};
use f77_leaves::meant::Meant;

/// What a name is used as.
#[derive(Clone, Copy, Debug, PartialEq, Eq)]
pub enum Use {
    /// A variable, an array, a dummy argument or a result.
    Variable,
    /// A constant.
    Constant,
    /// An intrinsic function.
    Intrinsic,
    /// The name of its main program or subroutine.
    Heading,
}

/// What a name without a list is used as.
fn plain_use(tables: &Tables, name: &Name) -> Use
    ensures { result ≡ spec.plain_use (told_by tables.now) name.now }
{
    if tables.names.has_value(name) {
        Use::Constant
    } else {
        Use::Variable
    }
}

/// What a name with a list is used as: one that is called has no use yet.
fn use_by(meant: Meant) -> Option<Use>
    ensures { result ≡ spec.use_by meant }
{
    match meant {
        Meant::Element => Some(Use::Variable),
        Meant::Function(_) => Some(Use::Intrinsic),
        Meant::Call => None,
    }
}

/// What a reference uses its name as.
fn reference_use(tables: &Tables, mention: &Mention) -> Option<Use>
    ensures { result ≡ spec.reference_use (told_by tables.now) mention.now }
{
    if mention.listed {
        use_by(tables.names.meant(&mention.name))
    } else {
        Some(plain_use(tables, &mention.name))
    }
}

/// What a member of EQUIVALENCE or DATA uses its name as.
fn member_use(tables: &Tables, mention: &Mention) -> Option<Use>
    ensures { result ≡ spec.member_use (told_by tables.now) mention.now }
{
    if !mention.listed {
        return Some(Use::Variable);
    }
    if tables.names.has_bounds(&mention.name) {
        Some(Use::Variable)
    } else {
        None
    }
}

/// What a type statement uses a name without bounds as.
fn typed_use(tables: &Tables, name: &Name) -> Option<Use>
    ensures { result ≡ spec.typed_use (told_by tables.now) name.now }
{
    if tables.names.is_heading(name) {
        Some(Use::Variable)
    } else {
        None
    }
}

/// What a name is used as where it is.
pub fn use_of(tables: &Tables, mention: &Mention) -> Option<Use>
    ensures { result ≡ spec.use_of (told_by tables.now) mention.now }
{
    match mention.role {
        Role::Heading => Some(Use::Heading),
        Role::Function => Some(Use::Variable),
        Role::Dummy => Some(Use::Variable),
        Role::Typed => typed_use(tables, &mention.name),
        Role::Shaped => Some(Use::Variable),
        Role::Common => Some(Use::Variable),
        Role::Block => None,
        Role::Member => member_use(tables, mention),
        Role::Filled => member_use(tables, mention),
        Role::Constant => Some(Use::Constant),
        Role::Repeat => reference_use(tables, mention),
        Role::Datum => reference_use(tables, mention),
        Role::Saved => None,
        Role::Called => None,
        Role::Target => reference_use(tables, mention),
        Role::Input => reference_use(tables, mention),
        Role::Control => reference_use(tables, mention),
        Role::Operand => reference_use(tables, mention),
    }
}

/// Whether a name is there by more than SAVE and type statements.
pub fn is_busy(role: Role) -> bool
    ensures { result ≡ spec.is_busy role }
{
    match role {
        Role::Heading => true,
        Role::Function => true,
        Role::Dummy => true,
        Role::Typed => false,
        Role::Shaped => true,
        Role::Common => true,
        Role::Block => false,
        Role::Member => true,
        Role::Filled => true,
        Role::Constant => true,
        Role::Repeat => true,
        Role::Datum => true,
        Role::Saved => false,
        Role::Called => true,
        Role::Target => true,
        Role::Input => true,
        Role::Control => true,
        Role::Operand => true,
    }
}

/// Whether two uses are one.
fn same_use(one: Use, other: Use) -> bool
    ensures { result ≡ spec.same_use one other }
{
    match (one, other) {
        (Use::Variable, Use::Variable) => true,
        (Use::Variable, Use::Constant) => false,
        (Use::Variable, Use::Intrinsic) => false,
        (Use::Variable, Use::Heading) => false,
        (Use::Constant, Use::Variable) => false,
        (Use::Constant, Use::Constant) => true,
        (Use::Constant, Use::Intrinsic) => false,
        (Use::Constant, Use::Heading) => false,
        (Use::Intrinsic, Use::Variable) => false,
        (Use::Intrinsic, Use::Constant) => false,
        (Use::Intrinsic, Use::Intrinsic) => true,
        (Use::Intrinsic, Use::Heading) => false,
        (Use::Heading, Use::Variable) => false,
        (Use::Heading, Use::Constant) => false,
        (Use::Heading, Use::Intrinsic) => false,
        (Use::Heading, Use::Heading) => true,
    }
}

/// Whether there are two uses, and not one.
pub fn differ(one: Option<Use>, other: Option<Use>) -> bool
    ensures { result ≡ spec.differ one other }
{
    match (one, other) {
        (None, _) => false,
        (Some(_), None) => false,
        (Some(one), Some(other)) => !same_use(one, other),
    }
}

/// Whether a name with this first use is a variable, an array, a dummy argument, a result or a constant.
pub fn is_entity_by(first: Option<Use>, alone: bool) -> bool
    ensures { result ≡ spec.is_entity_by first alone }
{
    match first {
        None => alone,
        Some(Use::Variable) => true,
        Some(Use::Constant) => true,
        Some(Use::Intrinsic) => false,
        Some(Use::Heading) => false,
    }
}
