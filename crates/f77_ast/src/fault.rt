//! Why a run stops before its end.
ghost use Rattle.std.specs.Prelude.{◌≡◌};

/// Why a run stops before its end.
#[derive(Clone, Copy, Debug, PartialEq, Eq)]
pub enum Fault {
    /// Division or MOD by 0, or 0 to a negative power.
    ZeroDivisor,
    /// A subscript outside its bounds; for a last bound `*` below the lower bound.
    Subscript,
    /// A unit reached by a dummy, or the first unit of an actual that is named through a dummy, outside the region
    /// of that dummy's actual.
    OutsideRegion,
    /// Not 1 <= low <= high <= length.
    Substring,
    /// A DO increment of 0.
    ZeroIncrement,
    /// A DO's count, or its variable's value at the end of the loop, is not from -2^63 to 2^63 - 1, at entry.
    DoRange,
    /// A write to a dummy that is bound to a value.
    ValueDummyAssigned,
    /// No number is left in the input.
    InputEnd,
    /// What is next in the input is no number.
    InputForm,
    /// A printed line past 10,000 bytes.
    LineLimit,
    /// CHAR of a number outside 0 to 255.
    CharRange,
    /// A write to the variable of a DO or implied DO that is running, in any frame, but by its own
    /// control.
    DoVariableWritten,
}

impl Fault {
    ghost use Rattle.f77_ast.specs.Fault.{code_of};

    /// Its code, 1 to 12 in the order of the list.
    pub fn code(self) -> u8
        ensures { result ≡ code_of self }
    {
        match self {
            Fault::ZeroDivisor => 1,
            Fault::Subscript => 2,
            Fault::OutsideRegion => 3,
            Fault::Substring => 4,
            Fault::ZeroIncrement => 5,
            Fault::DoRange => 6,
            Fault::ValueDummyAssigned => 7,
            Fault::InputEnd => 8,
            Fault::InputForm => 9,
            Fault::LineLimit => 10,
            Fault::CharRange => 11,
            Fault::DoVariableWritten => 12,
        }
    }
}
