//! Words of rows.

use f77_ast::program::Region;
use f77_ast::step::Stepped;
use hyb_base::ops::RedOp;

/// The operators.
const OPERATORS: [RedOp; 8] = [
    RedOp::Add,
    RedOp::Mul,
    RedOp::Max,
    RedOp::Min,
    RedOp::And,
    RedOp::Or,
    RedOp::Eqv,
    RedOp::Neqv,
];

/// The sign of an operator.
pub fn sign(op: RedOp) -> &'static str {
    match op {
        RedOp::Add => "+",
        RedOp::Mul => "*",
        RedOp::Max => "MAX",
        RedOp::Min => "MIN",
        RedOp::And => ".AND.",
        RedOp::Or => ".OR.",
        RedOp::Eqv => ".EQV.",
        RedOp::Neqv => ".NEQV.",
    }
}

/// Addresses one after another, the last one among them.
#[derive(Clone, Copy)]
pub struct Run {
    /// The first.
    pub first: u32,
    /// The last; where it is less than the first there is none.
    pub last: u32,
}

/// What accesses do with their addresses.
#[derive(Clone, Copy)]
enum Use {
    Read,
    Write,
}

/// Accesses of a word: one of each address, plain ones or accumulations.
#[derive(Clone, Copy)]
pub struct Accesses {
    /// The addresses.
    pub run: Run,
    kind: Use,
    by: Option<RedOp>,
}

impl Accesses {
    /// The access of an address.
    pub fn step(&self, address: u32) -> Stepped {
        match self.kind {
            Use::Read => Stepped::Read {
                address,
                by: self.by,
            },
            Use::Write => Stepped::Wrote {
                address,
                by: self.by,
                control: None,
            },
        }
    }
}

/// The addresses of a word such as `5`, or `5..9` for five addresses.
pub fn run_of(word: &str) -> Option<Run> {
    let (first, last) = word.split_once("..").unwrap_or((word, word));
    Some(Run {
        first: first.parse::<u32>().ok()?,
        last: last.parse::<u32>().ok()?,
    })
}

/// The accesses by an operator, or the plain ones, of a word such as `r5` or `w5..9`.
fn accesses_by(word: &str, by: Option<RedOp>) -> Option<Accesses> {
    let (kind, addresses) = match word.strip_prefix("r") {
        Some(addresses) => (Use::Read, addresses),
        None => (Use::Write, word.strip_prefix("w")?),
    };
    Some(Accesses {
        run: run_of(addresses)?,
        kind,
        by,
    })
}

/// The accesses of a word such as `r5`, `+w5` or `r5..9`.
pub fn accesses_of(word: &str) -> Option<Accesses> {
    for op in OPERATORS {
        if let Some(rest) = word.strip_prefix(sign(op)) {
            return accesses_by(rest, Some(op));
        }
    }
    accesses_by(word, None)
}

/// The region of a word such as `3:2`, which has a start and a length.
pub fn region(word: &str) -> Option<Region> {
    let (start, len) = word.split_once(":")?;
    Some(Region {
        start: start.parse::<u32>().ok()?,
        len: len.parse::<u32>().ok()?,
    })
}
