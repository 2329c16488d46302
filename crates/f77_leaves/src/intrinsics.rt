//! The intrinsic functions of INTEGER and CHARACTER (ANSI X3.9-1978, section 15.10, table 5).
ghost use Rattle.std.specs.Prelude.{◌≡◌, find};
ghost use Rattle.f77_leaves.specs.Intrinsics as spec;

use f77_ast::expr::Kind;

/// An intrinsic function.
#[derive(Clone, Copy, Debug, PartialEq, Eq)]
pub enum Intrinsic {
    /// `ABS`: the absolute value.
    Abs,
    /// `IABS`: likewise.
    Iabs,
    /// `MOD`: the remainder.
    Mod,
    /// `SIGN`: the first's absolute value with the second's sign.
    Sign,
    /// `ISIGN`: likewise.
    Isign,
    /// `DIM`: the positive difference.
    Dim,
    /// `IDIM`: likewise.
    Idim,
    /// `MAX`: the greatest.
    Max,
    /// `MAX0`: likewise.
    Max0,
    /// `MIN`: the least.
    Min,
    /// `MIN0`: likewise.
    Min0,
    /// `ICHAR`: the number of a character.
    Ichar,
    /// `CHAR`: the character of a number.
    Char,
    /// `LEN`: the length.
    Len,
    /// `INDEX`: the place of the second in the first.
    Index,
    /// `LGE`: whether the first is greater or equal.
    Lge,
    /// `LGT`: whether it is greater.
    Lgt,
    /// `LLE`: whether it is less or equal.
    Lle,
    /// `LLT`: whether it is less.
    Llt,
}

impl Intrinsic {
    /// How it is spelled.
    pub fn spelling(self) -> &'static [u8]
        ensures { result.now ≡ spec.spelling self }
    {
        match self {
            Intrinsic::Abs => b"ABS".as_slice(),
            Intrinsic::Iabs => b"IABS".as_slice(),
            Intrinsic::Mod => b"MOD".as_slice(),
            Intrinsic::Sign => b"SIGN".as_slice(),
            Intrinsic::Isign => b"ISIGN".as_slice(),
            Intrinsic::Dim => b"DIM".as_slice(),
            Intrinsic::Idim => b"IDIM".as_slice(),
            Intrinsic::Max => b"MAX".as_slice(),
            Intrinsic::Max0 => b"MAX0".as_slice(),
            Intrinsic::Min => b"MIN".as_slice(),
            Intrinsic::Min0 => b"MIN0".as_slice(),
            Intrinsic::Ichar => b"ICHAR".as_slice(),
            Intrinsic::Char => b"CHAR".as_slice(),
            Intrinsic::Len => b"LEN".as_slice(),
            Intrinsic::Index => b"INDEX".as_slice(),
            Intrinsic::Lge => b"LGE".as_slice(),
            Intrinsic::Lgt => b"LGT".as_slice(),
            Intrinsic::Lle => b"LLE".as_slice(),
            Intrinsic::Llt => b"LLT".as_slice(),
        }
    }

    /// The kind of all its arguments.
    pub fn takes(self) -> Kind
        ensures { result ≡ spec.takes self }
    {
        match self {
            Intrinsic::Abs => Kind::Integer,
            Intrinsic::Iabs => Kind::Integer,
            Intrinsic::Mod => Kind::Integer,
            Intrinsic::Sign => Kind::Integer,
            Intrinsic::Isign => Kind::Integer,
            Intrinsic::Dim => Kind::Integer,
            Intrinsic::Idim => Kind::Integer,
            Intrinsic::Max => Kind::Integer,
            Intrinsic::Max0 => Kind::Integer,
            Intrinsic::Min => Kind::Integer,
            Intrinsic::Min0 => Kind::Integer,
            Intrinsic::Ichar => Kind::Character,
            Intrinsic::Char => Kind::Integer,
            Intrinsic::Len => Kind::Character,
            Intrinsic::Index => Kind::Character,
            Intrinsic::Lge => Kind::Character,
            Intrinsic::Lgt => Kind::Character,
            Intrinsic::Lle => Kind::Character,
            Intrinsic::Llt => Kind::Character,
        }
    }

    /// The kind of what it gives.
    pub fn gives(self) -> Kind
        ensures { result ≡ spec.gives self }
    {
        match self {
            Intrinsic::Abs => Kind::Integer,
            Intrinsic::Iabs => Kind::Integer,
            Intrinsic::Mod => Kind::Integer,
            Intrinsic::Sign => Kind::Integer,
            Intrinsic::Isign => Kind::Integer,
            Intrinsic::Dim => Kind::Integer,
            Intrinsic::Idim => Kind::Integer,
            Intrinsic::Max => Kind::Integer,
            Intrinsic::Max0 => Kind::Integer,
            Intrinsic::Min => Kind::Integer,
            Intrinsic::Min0 => Kind::Integer,
            Intrinsic::Ichar => Kind::Integer,
            Intrinsic::Char => Kind::Character,
            Intrinsic::Len => Kind::Integer,
            Intrinsic::Index => Kind::Integer,
            Intrinsic::Lge => Kind::Logical,
            Intrinsic::Lgt => Kind::Logical,
            Intrinsic::Lle => Kind::Logical,
            Intrinsic::Llt => Kind::Logical,
        }
    }

    /// Whether it takes this number of arguments: MAX and MIN take two or more.
    pub fn takes_count(self, count: usize) -> bool
        ensures { result ≡ spec.takes_count self count }
    {
        match self {
            Intrinsic::Abs => count == 1,
            Intrinsic::Iabs => count == 1,
            Intrinsic::Mod => count == 2,
            Intrinsic::Sign => count == 2,
            Intrinsic::Isign => count == 2,
            Intrinsic::Dim => count == 2,
            Intrinsic::Idim => count == 2,
            Intrinsic::Max => count >= 2,
            Intrinsic::Max0 => count >= 2,
            Intrinsic::Min => count >= 2,
            Intrinsic::Min0 => count >= 2,
            Intrinsic::Ichar => count == 1,
            Intrinsic::Char => count == 1,
            Intrinsic::Len => count == 1,
            Intrinsic::Index => count == 2,
            Intrinsic::Lge => count == 2,
            Intrinsic::Lgt => count == 2,
            Intrinsic::Lle => count == 2,
            Intrinsic::Llt => count == 2,
        }
    }
}

/// The first of some intrinsic functions that is spelled so.
fn first_spelled(intrinsics: &[Intrinsic], name: &[u8]) -> Option<Intrinsic>
    ensures { result ≡ find (spec.is_spelled name.now) intrinsics.now }
{
    for intrinsic in intrinsics {
        if intrinsic.spelling() == name {
            return Some(*intrinsic);
        }
    }
    None
}

/// The intrinsic function that is spelled so; none where there is no such one.
pub fn intrinsic_named(name: &[u8]) -> Option<Intrinsic>
    ensures { result ≡ spec.intrinsic_named name.now }
{
    first_spelled(
        &[
            Intrinsic::Abs,
            Intrinsic::Iabs,
            Intrinsic::Mod,
            Intrinsic::Sign,
            Intrinsic::Isign,
            Intrinsic::Dim,
            Intrinsic::Idim,
            Intrinsic::Max,
            Intrinsic::Max0,
            Intrinsic::Min,
            Intrinsic::Min0,
            Intrinsic::Ichar,
            Intrinsic::Char,
            Intrinsic::Len,
            Intrinsic::Index,
            Intrinsic::Lge,
            Intrinsic::Lgt,
            Intrinsic::Lle,
            Intrinsic::Llt,
        ],
        name,
    )
}
