//! Operators as they are spelled, and how tight each binds (ANSI X3.9-1978, sections 6.1.1, 6.2.1, 6.3.1, 6.4.1 and
//! 6.5).
//!
//! Levels of the grammar are counted from the tightest: 0 primary, 1 factor, 2 term, 3 sum, 4 chars, 5 relation,
//! 6 negation, 7 conjunction, 8 disjunction, 9 expr.
ghost use Rattle.std.specs.Prelude.{◌≡◌, ◌∷◌, []};
ghost use Rattle.f77_exprs.specs.Operators as spec;

use f77_ast::expr::Op;
use hyb_base::ops::Rel;

/// An operator between two operands.
#[derive(Clone, Copy)]
pub enum Infix {
    /// `**`.
    Pow,
    /// `*`.
    Mul,
    /// `/`.
    Div,
    /// `+`.
    Add,
    /// `-`.
    Sub,
    /// `//`.
    Cat,
    /// `.EQ.`.
    Eq,
    /// `.NE.`.
    Ne,
    /// `.LT.`.
    Lt,
    /// `.LE.`.
    Le,
    /// `.GT.`.
    Gt,
    /// `.GE.`.
    Ge,
    /// `.AND.`.
    And,
    /// `.OR.`.
    Or,
    /// `.EQV.`.
    Eqv,
    /// `.NEQV.`.
    Neqv,
}

impl Infix {
    /// The operator of a tree.
    pub fn operator(self) -> Op
        ensures { result ≡ spec.operator self }
    {
        match self {
            Infix::Pow => Op::Pow,
            Infix::Mul => Op::Mul,
            Infix::Div => Op::Div,
            Infix::Add => Op::Add,
            Infix::Sub => Op::Sub,
            Infix::Cat => Op::Cat,
            Infix::Eq => Op::Rel(Rel::Eq),
            Infix::Ne => Op::Rel(Rel::Ne),
            Infix::Lt => Op::Rel(Rel::Lt),
            Infix::Le => Op::Rel(Rel::Le),
            Infix::Gt => Op::Rel(Rel::Gt),
            Infix::Ge => Op::Rel(Rel::Ge),
            Infix::And => Op::And,
            Infix::Or => Op::Or,
            Infix::Eqv => Op::Eqv,
            Infix::Neqv => Op::Neqv,
        }
    }

    /// How it is spelled.
    pub fn spelling(self) -> &'static [u8]
        ensures { result.now ≡ spec.spelling self }
    {
        match self {
            Infix::Pow => b"**".as_slice(),
            Infix::Mul => b"*".as_slice(),
            Infix::Div => b"/".as_slice(),
            Infix::Add => b"+".as_slice(),
            Infix::Sub => b"-".as_slice(),
            Infix::Cat => b"//".as_slice(),
            Infix::Eq => b".EQ.".as_slice(),
            Infix::Ne => b".NE.".as_slice(),
            Infix::Lt => b".LT.".as_slice(),
            Infix::Le => b".LE.".as_slice(),
            Infix::Gt => b".GT.".as_slice(),
            Infix::Ge => b".GE.".as_slice(),
            Infix::And => b".AND.".as_slice(),
            Infix::Or => b".OR.".as_slice(),
            Infix::Eqv => b".EQV.".as_slice(),
            Infix::Neqv => b".NEQV.".as_slice(),
        }
    }
}

/// An operator before its one operand.
#[derive(Clone, Copy)]
pub enum Prefix {
    /// `+`.
    Plus,
    /// `-`.
    Neg,
    /// `.NOT.`.
    Not,
}

impl Prefix {
    /// The operator of a tree.
    pub fn operator(self) -> Op
        ensures { result ≡ spec.prefix_operator self }
    {
        match self {
            Prefix::Plus => Op::Plus,
            Prefix::Neg => Op::Neg,
            Prefix::Not => Op::Not,
        }
    }

    /// How it is spelled.
    pub fn spelling(self) -> &'static [u8]
        ensures { result.now ≡ spec.prefix_spelling self }
    {
        match self {
            Prefix::Plus => b"+".as_slice(),
            Prefix::Neg => b"-".as_slice(),
            Prefix::Not => b".NOT.".as_slice(),
        }
    }
}

/// Whether a text begins with a spelling.
pub fn begins(spelling: &[u8], text: &[u8]) -> bool
    ensures { result ≡ spec.begins spelling.now text.now }
{
    text.starts_with(spelling)
}

/// Whether an operator comes next: `/` only where `//` doesn't. `**` is taken at level 1, before `*` is looked for.
fn is_here(operator: Infix, text: &[u8]) -> bool
    ensures { result ≡ spec.is_here operator text.now }
{
    match operator {
        Infix::Div => begins(b"/".as_slice(), text) && !begins(b"//".as_slice(), text),
        _ => begins(operator.spelling(), text),
    }
}

/// The first of some operators that comes next.
fn first_here(operators: &[Infix], text: &[u8]) -> Option<Infix>
    ensures { result ≡ spec.first_passing spec.is_here operators.now text.now }
{
    for operator in operators {
        if is_here(*operator, text) {
            return Some(*operator);
        }
    }
    None
}

/// The operator of a level that comes next.
pub fn infix_at(level: usize, text: &[u8]) -> Option<Infix>
    ensures { result ≡ spec.infix_at level text.now }
{
    match level {
        1 => first_here(&[Infix::Pow], text),
        2 => first_here(&[Infix::Mul, Infix::Div], text),
        3 => first_here(&[Infix::Add, Infix::Sub], text),
        4 => first_here(&[Infix::Cat], text),
        5 => first_here(
            &[
                Infix::Eq,
                Infix::Ne,
                Infix::Lt,
                Infix::Le,
                Infix::Gt,
                Infix::Ge,
            ],
            text,
        ),
        7 => first_here(&[Infix::And], text),
        8 => first_here(&[Infix::Or], text),
        9 => first_here(&[Infix::Eqv, Infix::Neqv], text),
        _ => None,
    }
}

/// Whether an operator comes next before its operand.
fn is_before(operator: Prefix, text: &[u8]) -> bool
    ensures { result ≡ spec.is_before operator text.now }
{
    begins(operator.spelling(), text)
}

/// The operator before an operand that comes next at the head of a level.
pub fn prefix_at(level: usize, text: &[u8]) -> Option<Prefix>
    ensures { result ≡ spec.prefix_at level text.now }
{
    match level {
        3 if is_before(Prefix::Plus, text) => Some(Prefix::Plus),
        3 if is_before(Prefix::Neg, text) => Some(Prefix::Neg),
        6 if is_before(Prefix::Not, text) => Some(Prefix::Not),
        _ => None,
    }
}
