//! The limits on programs.
ghost use Rattle.std.specs.Prelude.{◌≡◌};
ghost use Rattle.f77_ast.specs.Limits as limit;

/// The continuation lines of a statement, at most (ANSI X3.9-1978, section 3.3).
pub const MOST_CONTINUATION_LINES: u32 = 19;

/// The statements of a file, at most.
pub const MOST_STATEMENTS: usize = 10_000;

/// The units of a file, at most.
pub const MOST_UNITS: usize = 200;

/// The names of a file, at most, each counted once in each unit in which it is.
pub const MOST_NAMES: usize = 10_000;

/// The dimensions of an array, at most (ANSI X3.9-1978, section 5.1.1).
pub const MOST_DIMENSIONS: usize = 7;

/// The length of a CHARACTER entity, at most.
pub const MOST_CHARACTERS: u32 = 1_000;

/// The operands of a file, at most: for each unit those of the statement that has most of them, added up.
pub const MOST_OPERANDS: u32 = 32_768;

/// The storage units of a program, at most.
pub const MOST_STORAGE_UNITS: u32 = 1_000_000;

/// The bytes of a printed line without its LF, at most.
pub const MOST_LINE_BYTES: usize = 10_000;

/// A law: the limits that definitions cite are those of the code.
pub fn law_of_limits()
    ensures continuation_lines { MOST_CONTINUATION_LINES ≡ limit.most_continuation_lines }
    ensures statements { MOST_STATEMENTS ≡ limit.most_statements }
    ensures units { MOST_UNITS ≡ limit.most_units }
    ensures names { MOST_NAMES ≡ limit.most_names }
    ensures dimensions { MOST_DIMENSIONS ≡ limit.most_dimensions }
    ensures characters { MOST_CHARACTERS ≡ limit.most_characters }
    ensures operands { MOST_OPERANDS ≡ limit.most_operands }
    ensures storage_units { MOST_STORAGE_UNITS ≡ limit.most_storage_units }
    ensures line_bytes { MOST_LINE_BYTES ≡ limit.most_line_bytes }
{}
