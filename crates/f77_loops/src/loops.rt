//! The DO-loops of a file.
ghost use Rattle.std.specs.Prelude.{◌≡◌, ◌+◌, ◌^◌, ◌<◌, ◌∷◌, [], ◌++◌, length, List, IfOk, OnOk};
ghost use Rattle.f77_ast.specs.Loop.{IsNumbered};
ghost use Rattle.f77_structure.specs.Loops.{loops_in, loops_of};
ghost use Rattle.f77_structure.specs.Units.{statement_count};
ghost use Rattle.f77_loops.specs.Ranges.{loop_with};
ghost use Rattle.f77_loops.specs.Adding.{AreRangesOf, IsAdded};
ghost use Rattle.f77_ast.specs.declared.program.Listed.{Listed};

use crate::ranges::{Range, ranges_of};
use f77_ast::program::{Listed, Listing, Loop, Loops, Units};
use f77_structure::statements::terminal_label;
use hyb_base::list::List;
use hyb_base::no_memory::NoMemory;
use std::alloc::Global;

/// The DO-loops of a file, in the order of their DO statements (ANSI X3.9-1978, section 11.10).
///
/// Units are counted from 0, DO statements and the statements of the file from 1. The range of a DO statement is from
/// the next statement to the first executable statement after it in its unit that has the label that it names; where
/// there is none, `last` is the number of the statement after the unit's last one. It is closed where its range holds
/// no READ, PRINT, WRITE, STOP or RETURN; calls and jumps aren't looked at yet. The units may be any, also those of a
/// file that is refused.
///
/// `NoMemory` where no memory was to be had, and never else. The cost grows with the number of statements.
pub fn loops(alloc: Global, units: &Units) -> Result<Loops, NoMemory>
    requires few_units { length units.now < 2 ^ 32 }
    requires few_statements { statement_count units.now + 1 < 2 ^ 32 }
    ensures all { IfOk result (λ loops. loops ≡ loops_of units.now) }
    ensures numbered { IfOk result (λ loops. IsNumbered loops) }
{
    let mut loops = List::new(alloc);
    let mut number: u32 = 1;
    let all = units.as_slice();
    for (unit, program_unit) in all.iter().enumerate() {
        add_loops(
            alloc,
            unit as u32,
            number,
            &program_unit.listing,
            &mut loops,
        )?;
        number += program_unit.listing.len() as u32;
    }
    Ok(loops)
}

/// Adds the loops of a unit, whose first statement has this number.
fn add_loops(
    alloc: Global,
    unit: u32,
    number: u32,
    listing: &Listing,
    loops: &mut Loops,
) -> Result<(), NoMemory>
    requires statements { number + length listing.now < 2 ^ 32 }
    requires before { length loops.old < number }
    ensures added { OnOk result (loops.new ≡ loops.old ++ loops_in unit (length loops.old + 1) number listing.now) }
    ensures few { OnOk result (length loops.new < number + length listing.now) }
{
    let mut ranges = ranges_of(alloc, number, listing)?;
    let mut next = number;
    let statements = listing.as_slice();
    for listed in statements {
        add_statement(unit, next, listed, &mut ranges, loops)?;
        next += 1;
    }
    Ok(())
}

/// Adds the loop of a statement, which has this number, where it is a DO statement: its range is the last of these.
fn add_statement(
    unit: u32,
    number: u32,
    listed: &Listed,
    ranges: &mut Vec<Range>,
    loops: &mut Loops,
) -> Result<(), NoMemory>
    requires room { number + 1 < 2 ^ 32 }
    requires before { length loops.old < number }
    ensures added { OnOk result ((following : List Listed) → AreRangesOf number (listed.now ∷ following) ranges.old.items → IsAdded unit number listed.now following loops.old ranges.new.items loops.new) }
    ensures few { OnOk result (length loops.new < number + 1) }
{
    match terminal_label(&listed.stmt) {
        None => Ok(()),
        Some(_label) => match ranges.pop() {
            None => Ok(()),
            Some(range) => add_loop(unit, number + 1, listed.card.line, &range, loops),
        },
    }
}

/// Adds a loop: its unit, the number of the first statement of its range, and the line of its DO statement.
fn add_loop(
    unit: u32,
    from: u32,
    line: u32,
    range: &Range,
    loops: &mut Loops,
) -> Result<(), NoMemory>
    requires { length loops.old < from }
    ensures { OnOk result (loops.new ≡ loops.old ++ loop_with unit (length loops.old + 1) from line range.now ∷ []) }
{
    let ordinal = loops.len() as u32 + 1;
    loops.push(Loop {
        line,
        ordinal,
        unit,
        from,
        last: range.last,
        closed: range.closed,
    })
}
