//! What declarations say of names (ANSI X3.9-1978, section 8).

use f77_ast::expr::{Expr, Kind};
use f77_ast::name::Name;
use f77_ast::program::Bounds;
use f77_ast::specification::Length;

/// The type that a declaration gives.
#[derive(Drop)]
pub struct Typing {
    /// The kind.
    pub kind: Kind,
    /// The length of CHARACTER; where none is given, 1.
    pub length: Option<Length>,
}

/// What a declaration says of a name.
#[derive(Drop)]
pub enum Fact {
    /// Its type: in a type statement, or before FUNCTION.
    Typed(Typing),
    /// Its bounds: in a type statement, DIMENSION or COMMON.
    Bounded(Bounds),
    /// A place in COMMON.
    Common,
    /// In PARAMETER: the constant that it is.
    Valued(Expr),
    /// In SUBROUTINE or FUNCTION: its place among the dummy arguments, from 0.
    Dummy(usize),
    /// It is the name of a main program or subroutine.
    Heading,
    /// It is the name of a function, and of its result.
    Result,
}

/// A name, and what a declaration says of it.
#[derive(Drop)]
pub struct Declared {
    /// The name.
    pub name: Name,
    /// What is said.
    pub fact: Fact,
}

/// What declarations say of a name: the first of each sort.
#[derive(Drop)]
pub struct Known {
    /// Its type: that of a type statement, or of its FUNCTION.
    pub typing: Option<Typing>,
    /// Its bounds.
    pub bounds: Option<Bounds>,
    /// The constant that it is.
    pub value: Option<Expr>,
    /// Its place among the dummy arguments, from 0.
    pub dummy: Option<usize>,
    /// Whether it is a member of COMMON.
    pub common: bool,
    /// Whether it is the name of the main program or subroutine.
    pub heading: bool,
    /// Whether it is the name of the function, and so the result.
    pub result: bool,
}
