//! What a name is that a list in parentheses follows (ANSI X3.9-1978, sections 5.3, 15.2 and 15.10).

use crate::intrinsics::Intrinsic;

/// What a name is that a list in parentheses follows.
#[derive(Clone, Copy, Debug, PartialEq, Eq)]
pub enum Meant {
    /// An array: the list has the subscripts of an element.
    Element,
    /// An intrinsic function: the list has its arguments.
    Function(Intrinsic),
    /// Something called: a function of the file, or nothing that there is.
    Call,
}
