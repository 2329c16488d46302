//! The loops of a program, found by their DO statements (ANSI X3.9-1978, section 11.10).
ghost use Rattle.std.specs.Prelude.{◌≡◌, ◌+◌, ◌<◌, ◌≤◌, ◌^◌};
ghost use Rattle.std.specs.Option.{option_copied};
ghost use Rattle.f77_structure.specs.Loops.{StartInOrder, loop_with_range_from};
ghost use Rattle.f77_structure.specs.Units.{statement_number, statements_before, statement_count};
ghost use Rattle.f77_meaning.specs.Sound.{IsSound};
ghost use Rattle.f77_meaning.specs.Step.{loop_of_do};
ghost use Rattle.f77_machine.specs.Loops.{begins_at, IsFirstFrom};

use f77_ast::program::{Loop, Program, Unit};

/// The loop of the DO statement at a place of a unit: none exactly where no DO statement is there.
pub fn loop_of_do(program: &Program, unit: u32, at: usize) -> Option<&Loop>
    requires sound { IsSound program.now }
    requires few { statement_number program.now.units unit at + 1 < 2 ^ 32 }
    ensures { option_copied result ≡ loop_of_do program.now unit at }
{
    let number = 1 + statements_before(program.units.as_slice(), unit) + at as u32;
    loop_with_range_from(program.loops.as_slice(), number + 1)
}

/// How many statements are in the units before this one.
fn statements_before(units: &[Unit], unit: u32) -> u32
    requires few { statement_count units.now < 2 ^ 32 }
    ensures value { result ≡ statements_before units.now unit }
    ensures some { result ≤ statement_count units.now }
{
    match units {
        [] => 0,
        [first, rest @ ..] => {
            if unit == 0 {
                0
            } else {
                first.listing.len() as u32 + statements_before(rest, unit - 1)
            }
        }
    }
}

/// The loop whose range begins with this statement of the file, in a time that grows with the logarithm of their
/// number.
fn loop_with_range_from(loops: &[Loop], number: u32) -> Option<&Loop>
    requires sorted { StartInOrder 2 loops.now }
    ensures { option_copied result ≡ loop_with_range_from loops.now number }
{
    begins_at(loops, first_from(loops, number), number)
}

/// The place of the first loop whose range begins with this statement of the file, or after it.
fn first_from(loops: &[Loop], number: u32) -> usize
    requires sorted { StartInOrder 2 loops.now }
    ensures { IsFirstFrom loops.now number result }
{
    loops.partition_point(|candidate| candidate.from < number)
}

/// The loop at a place, where its range begins with this statement of the file.
fn begins_at(loops: &[Loop], place: usize, number: u32) -> Option<&Loop>
    ensures { option_copied result ≡ begins_at loops.now place number }
{
    match loops.get(place) {
        Some(found) if found.from == number => Some(found),
        _ => None,
    }
}
