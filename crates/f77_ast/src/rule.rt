//! The rules by which a program is refused.
ghost use Rattle.std.specs.Prelude.{◌≡◌};

/// A rule that a refused program breaks.
///
/// Rules are looked for in groups, one after the other: the lines of the file (codes 1 to 6), the text of each statement
/// (10 to 21), the shape of units (50 to 57), names and types (30 to 37), storage (40 to 45). The first group that finds
/// something refuses.
#[derive(Clone, Copy, Debug, PartialEq, Eq)]
pub enum Rule {
    /// A tab in columns 1 to 72 of a line that is no comment.
    Tab,
    /// In columns 7 to 72 a character that FORTRAN doesn't have, outside character constants; inside them a control
    /// character.
    BadCharacter,
    /// Columns 1 to 5 of an initial line with more than digits and blanks, or with no digit but zeros; columns 1 to 5 of a
    /// continuation line that aren't blank.
    BadLabel,
    /// The first continuation line of a statement that is one too many.
    TooManyContinuations,
    /// A statement whose text ends inside a character constant.
    OpenConstant,
    /// A continuation line before any initial line.
    LeadingContinuation,
    /// A text that spells no expression, for no reason with a rule of its own.
    NoExpression,
    /// An integer constant above 2^63 - 1.
    LiteralRange,
    /// A real constant.
    RealLiteral,
    /// A name of more than six characters.
    NameTooLong,
    /// A text that spells no statement, for no reason with a rule of its own.
    NoStatement,
    /// A text that spells no statement, and begins as one of those FORTRAN 77 statements that are left out.
    LeftOut,
    /// A variable, array, dummy argument, constant or function of type REAL.
    RealName,
    /// Operands, arguments, targets or array names that aren't of the type or form that their place asks for.
    TypeClash,
    /// A CALL or function reference of what is none.
    UnknownUnit,
    /// Too few or too many arguments, subscripts or dimensions.
    ArgumentCount,
    /// No constant, or one without a value, where a constant is due.
    ConstantExpected,
    /// Two program units of one name, or a name that a unit declares or uses as two things.
    DoubleName,
    /// A call by which a unit could come to be active twice; in READ or PRINT a function that could read or print.
    Recursion,
    /// In the range of a DO another assignment of its variable.
    DoVariableAssigned,
    /// A common block with numeric and character members.
    CommonMixed,
    /// Entities that can't be placed as COMMON and EQUIVALENCE say.
    EquivalenceClash,
    /// A length out of its limits, a dimension without elements, or storage past its limit.
    StorageLimit,
    /// A repeat below 1 in DATA, or more or fewer constants than what takes them.
    DataCount,
    /// In DATA a constant of another type, a dummy argument, or an element that there isn't; the last in EQUIVALENCE
    /// too.
    DataType,
    /// A second DATA value for a storage unit.
    DataTwice,
    /// A label that no executable statement of the unit has.
    LabelMissing,
    /// A label that an earlier statement of the unit has.
    DoubleLabel,
    /// A DO without a terminal statement that fits, or whose range crosses another range or block.
    DoNesting,
    /// An ELSE IF, ELSE or END IF without its IF, one after an ELSE, or an IF without its END IF.
    IfNesting,
    /// No main program, a second one, or a unit without its END.
    NoProgram,
    /// A jump into the range of a DO or into an IF block from outside.
    JumpIntoRange,
    /// More statements, units, names or operands than may be.
    SizeLimit,
    /// A statement out of the order of statements.
    StatementOrder,
}

impl Rule {
    ghost use Rattle.f77_ast.specs.Refusal.{code_of};

    /// Its code, which a refusal shows.
    pub fn code(self) -> u8
        ensures { result ≡ code_of self }
    {
        match self {
            Rule::Tab => 1,
            Rule::BadCharacter => 2,
            Rule::BadLabel => 3,
            Rule::TooManyContinuations => 4,
            Rule::OpenConstant => 5,
            Rule::LeadingContinuation => 6,
            Rule::NoExpression => 10,
            Rule::LiteralRange => 11,
            Rule::RealLiteral => 12,
            Rule::NameTooLong => 13,
            Rule::NoStatement => 20,
            Rule::LeftOut => 21,
            Rule::RealName => 30,
            Rule::TypeClash => 31,
            Rule::UnknownUnit => 32,
            Rule::ArgumentCount => 33,
            Rule::ConstantExpected => 34,
            Rule::DoubleName => 35,
            Rule::Recursion => 36,
            Rule::DoVariableAssigned => 37,
            Rule::CommonMixed => 40,
            Rule::EquivalenceClash => 41,
            Rule::StorageLimit => 42,
            Rule::DataCount => 43,
            Rule::DataType => 44,
            Rule::DataTwice => 45,
            Rule::LabelMissing => 50,
            Rule::DoubleLabel => 51,
            Rule::DoNesting => 52,
            Rule::IfNesting => 53,
            Rule::NoProgram => 54,
            Rule::JumpIntoRange => 55,
            Rule::SizeLimit => 56,
            Rule::StatementOrder => 57,
        }
    }
}
