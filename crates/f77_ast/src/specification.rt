//! The parts of specification statements: types, declarators, and the lists of COMMON, EQUIVALENCE, PARAMETER,
//! IMPLICIT and SAVE (ANSI X3.9-1978, section 8).

use crate::expr::{Expr, Ref};
use crate::name::Name;
use sqlite_items::Items;

/// typ: `INTEGER`; `LOGICAL`; `CHARACTER` [`*` len] (ANSI X3.9-1978, sections 8.4.1, 8.4.2 and 8.5).
#[derive(Drop)]
pub enum TypeSpec {
    /// `INTEGER`.
    Integer,
    /// `LOGICAL`.
    Logical,
    /// `CHARACTER` [`*` len].
    Character(Option<Length>),
}

/// len: digits; `(` expr `)`; `(*)` (ANSI X3.9-1978, section 8.4.2).
#[derive(Drop)]
pub enum Length {
    /// digits of value at most 2^63 - 1.
    Digits(i64),
    /// `(` expr `)`, a constant expression.
    Paren(Expr),
    /// `(*)`, the length of the actual argument.
    Asterisk,
}

/// bound: [expr `:`] expr or [expr `:`] `*`, a dimension declarator (ANSI X3.9-1978, section 5.1.1.1).
#[derive(Drop)]
pub struct Bound {
    /// The lower dimension bound; where it is left out, 1.
    pub low: Option<Expr>,
    /// The upper dimension bound, none for `*`.
    pub high: Option<Expr>,
}

/// decl: name [`(` list(bound) `)`], a variable name, array name or array declarator
/// (ANSI X3.9-1978, sections 5.1.1 and 8.1).
#[derive(Drop)]
pub struct Declarator {
    /// The name.
    pub name: Name,
    /// The dimensions, empty where there is no list.
    pub bounds: Items<Bound>,
}

/// decl [`*` len], an entity of a type statement; only one of CHARACTER has a length of its own
/// (ANSI X3.9-1978, section 8.4.2).
#[derive(Drop)]
pub struct TypedDeclarator {
    /// The declared name.
    pub declarator: Declarator,
    /// Its own length, before that of the statement.
    pub length: Option<Length>,
}

/// A group of COMMON: [`/` [name] `/`] list(decl) (ANSI X3.9-1978, section 8.3).
#[derive(Drop)]
pub struct CommonGroup {
    /// The common block's name, none for blank common, with or without its slashes.
    pub block: Option<Name>,
    /// The members, one or more.
    pub members: Items<Declarator>,
}

/// A list of EQUIVALENCE: `(` ref `,` list(ref) `)`, without substrings (ANSI X3.9-1978, section 8.2).
#[derive(Drop)]
pub struct EquivalenceGroup {
    /// The members, two or more.
    pub members: Items<Ref>,
}

/// name `=` expr of PARAMETER (ANSI X3.9-1978, section 8.6).
#[derive(Drop)]
pub struct NamedConstant {
    /// The symbolic name of the constant.
    pub name: Name,
    /// Its value, a constant expression.
    pub value: Expr,
}

/// typ `(` list(letter [`-` letter]) `)` of IMPLICIT (ANSI X3.9-1978, section 8.5).
#[derive(Drop)]
pub struct ImplicitRule {
    /// The type of the names that begin with one of the letters.
    pub typ: TypeSpec,
    /// The letters, one range or more.
    pub letters: Items<LetterRange>,
}

/// letter [`-` letter] (ANSI X3.9-1978, section 8.5). Letters are the codes of `A` to `Z`.
#[derive(Clone, Copy, Debug, PartialEq, Eq)]
pub struct LetterRange {
    /// The first letter.
    pub first: u8,
    /// The last letter; where it is left out, the first alone.
    pub last: Option<u8>,
}

/// name or `/` name `/` of SAVE (ANSI X3.9-1978, section 8.9).
#[derive(Drop)]
pub enum SaveEntry {
    /// name, a variable or an array.
    Entity(Name),
    /// `/` name `/`, a common block.
    Block(Name),
}
