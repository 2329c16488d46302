//! The words with which statements begin.
ghost use Rattle.std.specs.Prelude.{◌≡◌};
ghost use Rattle.f77_exprs.specs.Operators.{first_passing};
ghost use Rattle.f77_stmts.specs.Rows as rows;

use f77_exprs::operators::begins;

/// A word with which a statement begins, in the order of their search.
#[derive(Clone, Copy, Debug, PartialEq, Eq)]
pub enum Keyword {
    /// `DO`.
    Do,
    /// `CONTINUE`.
    Continue,
    /// `RETURN`.
    Return,
    /// `ELSEIF(`.
    ElseIf,
    /// `ELSE`.
    Else,
    /// `ENDIF`.
    EndIf,
    /// `END`.
    End,
    /// `STOP`.
    Stop,
    /// `GOTO(`.
    ComputedGoto,
    /// `GOTO`.
    Goto,
    /// `CALL`.
    Call,
    /// `PRINT*`.
    Print,
    /// `WRITE(*,*)`.
    Write,
    /// `READ*,`.
    ReadList,
    /// `READ(*,*)`.
    ReadUnit,
    /// `PROGRAM`.
    Program,
    /// `SUBROUTINE`.
    Subroutine,
    /// `FUNCTION`.
    Function,
    /// `INTEGER`.
    Integer,
    /// `LOGICAL`.
    Logical,
    /// `CHARACTER`.
    Character,
    /// `DIMENSION`.
    Dimension,
    /// `COMMON`.
    Common,
    /// `EQUIVALENCE`.
    Equivalence,
    /// `PARAMETER(`.
    Parameter,
    /// `IMPLICIT`.
    Implicit,
    /// `SAVE`.
    Save,
    /// `DATA`.
    Data,
}

impl Keyword {
    /// How it is spelled.
    pub fn spelling(self) -> &'static [u8]
        ensures { result.now ≡ rows.spelling self }
    {
        match self {
            Keyword::Do => b"DO".as_slice(),
            Keyword::Continue => b"CONTINUE".as_slice(),
            Keyword::Return => b"RETURN".as_slice(),
            Keyword::ElseIf => b"ELSEIF(".as_slice(),
            Keyword::Else => b"ELSE".as_slice(),
            Keyword::EndIf => b"ENDIF".as_slice(),
            Keyword::End => b"END".as_slice(),
            Keyword::Stop => b"STOP".as_slice(),
            Keyword::ComputedGoto => b"GOTO(".as_slice(),
            Keyword::Goto => b"GOTO".as_slice(),
            Keyword::Call => b"CALL".as_slice(),
            Keyword::Print => b"PRINT*".as_slice(),
            Keyword::Write => b"WRITE(*,*)".as_slice(),
            Keyword::ReadList => b"READ*,".as_slice(),
            Keyword::ReadUnit => b"READ(*,*)".as_slice(),
            Keyword::Program => b"PROGRAM".as_slice(),
            Keyword::Subroutine => b"SUBROUTINE".as_slice(),
            Keyword::Function => b"FUNCTION".as_slice(),
            Keyword::Integer => b"INTEGER".as_slice(),
            Keyword::Logical => b"LOGICAL".as_slice(),
            Keyword::Character => b"CHARACTER".as_slice(),
            Keyword::Dimension => b"DIMENSION".as_slice(),
            Keyword::Common => b"COMMON".as_slice(),
            Keyword::Equivalence => b"EQUIVALENCE".as_slice(),
            Keyword::Parameter => b"PARAMETER(".as_slice(),
            Keyword::Implicit => b"IMPLICIT".as_slice(),
            Keyword::Save => b"SAVE".as_slice(),
            Keyword::Data => b"DATA".as_slice(),
        }
    }

    /// Whether a logical IF may hold the statements that begin with it.
    pub fn is_action(self) -> bool
        ensures { result ≡ rows.is_action self }
    {
        matches!(
            self,
            Keyword::Continue
                | Keyword::Return
                | Keyword::Stop
                | Keyword::ComputedGoto
                | Keyword::Goto
                | Keyword::Call
                | Keyword::Print
                | Keyword::Write
                | Keyword::ReadList
                | Keyword::ReadUnit
        )
    }
}

/// Whether a text begins with a word.
fn is_here(keyword: Keyword, text: &[u8]) -> bool
    ensures { result ≡ rows.is_here keyword text.now }
{
    begins(keyword.spelling(), text)
}

/// The first of some words that a text begins with.
fn first_here(keywords: &[Keyword], text: &[u8]) -> Option<Keyword>
    ensures { result ≡ first_passing rows.is_here keywords.now text.now }
{
    for keyword in keywords {
        if is_here(*keyword, text) {
            return Some(*keyword);
        }
    }
    None
}

/// The word with which a text begins.
pub fn keyword_at(text: &[u8]) -> Option<Keyword>
    ensures { result ≡ rows.keyword_at text.now }
{
    first_here(
        &[
            Keyword::Do,
            Keyword::Continue,
            Keyword::Return,
            Keyword::ElseIf,
            Keyword::Else,
            Keyword::EndIf,
            Keyword::End,
            Keyword::Stop,
            Keyword::ComputedGoto,
            Keyword::Goto,
            Keyword::Call,
            Keyword::Print,
            Keyword::Write,
            Keyword::ReadList,
            Keyword::ReadUnit,
            Keyword::Program,
            Keyword::Subroutine,
            Keyword::Function,
            Keyword::Integer,
            Keyword::Logical,
            Keyword::Character,
            Keyword::Dimension,
            Keyword::Common,
            Keyword::Equivalence,
            Keyword::Parameter,
            Keyword::Implicit,
            Keyword::Save,
            Keyword::Data,
        ],
        text,
    )
}
