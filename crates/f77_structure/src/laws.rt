//! Laws of values and of the operators on them: functions with nothing to do.
ghost use Rattle.f77_structure.specs.Laws.{WrittenValuesAreRead, SignsAreNumeric, ArithmeticIsNumeric};

/// A law: a value that is written into cells is read from them again, where its characters have eight bits.
pub fn law_of_cells()
    ensures { WrittenValuesAreRead }
{}

/// A law: a sign before a number gives a number.
pub fn law_of_signs()
    ensures { SignsAreNumeric }
{}

/// A law: an arithmetic operator between two numbers gives a number, or a fault.
pub fn law_of_arithmetic()
    ensures { ArithmeticIsNumeric }
{}
