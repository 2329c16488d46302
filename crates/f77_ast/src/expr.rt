//! Expressions: constants, references and operators (ANSI X3.9-1978, section 6).

use crate::name::Name;
use hyb_base::bytes::Bytes;
use hyb_base::ops::Rel;
use sqlite_items::{Boxed, Items};

/// The types that values have here (ANSI X3.9-1978, section 4.1).
#[derive(Clone, Copy, Debug, PartialEq, Eq)]
pub enum Kind {
    /// INTEGER: a number of 64 bits.
    Integer,
    /// LOGICAL: true or false.
    Logical,
    /// CHARACTER: a string of bytes.
    Character,
}

/// An operator (ANSI X3.9-1978, sections 6.1.1, 6.2.1, 6.3.1 and 6.4.1).
#[derive(Clone, Copy, Debug, PartialEq, Eq)]
pub enum Op {
    /// `+` before its one operand.
    Plus,
    /// `-` before its one operand.
    Neg,
    /// `.NOT.` before its one operand.
    Not,
    /// `+` between two operands.
    Add,
    /// `-` between two operands.
    Sub,
    /// `*`.
    Mul,
    /// `/`.
    Div,
    /// `**`.
    Pow,
    /// `//`, concatenation.
    Cat,
    /// A relational operator, as `.EQ.`.
    Rel(Rel),
    /// `.AND.`.
    And,
    /// `.OR.`.
    Or,
    /// `.EQV.`.
    Eqv,
    /// `.NEQV.`.
    Neqv,
}

/// expr: operands, joined by operators and parentheses (ANSI X3.9-1978, section 6).
///
/// primary: digits of value at most 2^63 - 1; `.TRUE.`; `.FALSE.`; a character constant of at least one
/// character; ref; `(` expr `)`. Above it are, from the tightest, factor, term, sum, chars, relation, negation,
/// conjunction, disjunction and expr.
#[cycle(expr)]
#[derive(Drop)]
pub enum Expr {
    /// digits of value at most 2^63 - 1 (section 4.3.1).
    Int(i64),
    /// `.TRUE.` or `.FALSE.` (section 4.7.1).
    Truth(bool),
    /// a character constant of at least one character (section 4.8.1): its characters, without the apostrophes
    /// at its ends.
    Chars(Bytes),
    /// ref.
    Ref(Ref),
    /// `+` term; `-` term; `.NOT.` relation.
    Unary(Op, Boxed<Expr>),
    /// primary `**` factor; term `*` factor; and so on for each operator with two operands.
    Binary(Op, Boxed<Expr>, Boxed<Expr>),
    /// `(` expr `)`.
    Paren(Boxed<Expr>),
}

/// ref: name; name with `(` list of none or more expr `)`; either followed by `(` [expr] `:` [expr] `)`
/// (ANSI X3.9-1978, sections 5.3, 5.7.1 and 15.2).
///
/// A variable, an array, an array element, a substring, a named constant or a function reference: the text
/// alone does not tell which.
#[cycle(expr)]
#[derive(Drop)]
pub struct Ref {
    /// The name.
    pub name: Name,
    /// Subscripts or actual arguments: none where there is no list in parentheses, `()` being an empty list.
    pub args: Option<Items<Expr>>,
    /// The bounds of a substring.
    pub part: Option<Boxed<Part>>,
}

/// The part of a substring name: `(` [expr] `:` [expr] `)` (ANSI X3.9-1978, section 5.7.1).
#[cycle(expr)]
#[derive(Drop)]
pub struct Part {
    /// The leftmost character's position; where it is left out, 1.
    pub low: Option<Expr>,
    /// The rightmost character's position; where it is left out, the length.
    pub high: Option<Expr>,
}
