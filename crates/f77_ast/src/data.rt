//! The parts of DATA (ANSI X3.9-1978, section 9).

use crate::expr::Ref;
use crate::name::Name;
use hyb_base::bytes::Bytes;
use sqlite_items::Items;

/// A group of DATA: list(ref) `/` list([repeat `*`] const) `/`, without substrings
/// (ANSI X3.9-1978, section 9.1).
#[derive(Drop)]
pub struct DataGroup {
    /// What takes the values, one or more.
    pub targets: Items<Ref>,
    /// The values, one or more.
    pub values: Items<DataValue>,
}

/// [repeat `*`] const (ANSI X3.9-1978, section 9.1).
#[derive(Drop)]
pub struct DataValue {
    /// How often the constant is repeated; where it is left out, once.
    pub repeat: Option<Repeat>,
    /// The constant.
    pub constant: DataConstant,
}

/// repeat: digits; name (ANSI X3.9-1978, section 9.1).
#[derive(Drop)]
pub enum Repeat {
    /// digits of value at most 2^63 - 1.
    Digits(i64),
    /// name of a constant.
    Named(Name),
}

/// const: [`+` or `-`] digits; `.TRUE.`; `.FALSE.`; a character constant; name
/// (ANSI X3.9-1978, sections 4.2 and 9.1).
#[derive(Drop)]
pub enum DataConstant {
    /// [`+` or `-`] digits, with the sign in the value.
    Int(i64),
    /// `.TRUE.` or `.FALSE.`.
    Truth(bool),
    /// a character constant of at least one character.
    Chars(Bytes),
    /// name of a constant.
    Named(Name),
}
