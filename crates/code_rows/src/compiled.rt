//! The code of a source, shown: a line for each statement that has code, with the number of its line in the source.
ghost use Rattle.std.specs.Prelude.{◌≡◌, ◌<◌, ◌≤◌, ◌^◌, ◌+◌, length, IfOk};
ghost use Rattle.f77_meaning.specs.Sound.{IsSound};
ghost use Rattle.f77_structure.specs.Loops.{loops_of};
ghost use Rattle.f77_structure.specs.Units.{listing_of, statement_count};

use crate::instrs::show_instr;
use f77_ast::code::{Code, Instr};
use f77_ast::program::{Layout, Listed, Loop, Program, Unit};
use f77_ast::refusal::FrontError;
use f77_code::units::code;
use f77_front::front::front;
use hyb_base::bytes::Bytes;
use hyb_base::decimal::print_i64;
use hyb_base::no_memory::NoMemory;
use std::alloc::Global;

/// Shows instructions, with a comma and a blank between them.
fn show_instrs(instrs: &[Instr], into: &mut Bytes) -> Result<(), NoMemory> {
    for (place, instr) in instrs.iter().enumerate() {
        if place > 0 {
            into.push_slice(b", ".as_slice())?;
        }
        show_instr(*instr, into)?;
    }
    Ok(())
}

/// The place at which the code of a statement begins, or where that of the last one ends.
fn start_of(code: &Code, at: usize) -> usize {
    match code.starts.get(at) {
        Some(start) => usize::try_from(start).unwrap_or(0),
        None => code.instrs.len(),
    }
}

/// Shows the code of a statement, where it has any.
fn show_statement(listed: &Listed, instrs: &[Instr], into: &mut Bytes) -> Result<(), NoMemory> {
    if instrs.is_empty() {
        return Ok(());
    }
    print_i64(i64::from(listed.card.line), into)?;
    into.push_slice(b": ".as_slice())?;
    show_instrs(instrs, into)?;
    into.push(b'\n')
}

/// Shows the code of a unit.
fn show_code(listing: &[Listed], code: &Code, into: &mut Bytes) -> Result<(), NoMemory> {
    let instrs = code.instrs.as_slice();
    for (at, listed) in listing.iter().enumerate() {
        let start = start_of(code, at);
        let end = start_of(code, at.saturating_add(1));
        match instrs.get(start..end) {
            Some(own) => show_statement(listed, own, into)?,
            None => into.push_slice(b"no such instructions\n".as_slice())?,
        }
    }
    Ok(())
}

/// Shows the code of a unit of a file.
fn show_unit(
    alloc: Global,
    units: &[Unit],
    loops: &[Loop],
    layout: &Layout,
    unit: u32,
    listing: &[Listed],
    into: &mut Bytes,
) -> Result<(), NoMemory>
    requires entities { length layout.now.entities ≤ 2 ^ 32 }
    requires listing { listing.now ≡ listing_of units.now unit }
    requires loops { loops.now ≡ loops_of units.now }
    requires statements { statement_count units.now + 1 < 2 ^ 32 }
{
    let made = code(alloc, units, loops, listing, layout, unit)?;
    show_code(listing, &made, into)
}

/// Shows the code of the first unit of a source, or why there is none. A source that is accepted is one unit by now.
pub fn show_source(alloc: Global, source: &[u8], into: &mut Bytes) -> Result<(), NoMemory> {
    if source.len() > 1_000_000 {
        return into.push_slice(b"too large\n".as_slice());
    }
    match front(alloc, source) {
        Ok(program) => show_program(alloc, &program, into),
        Err(FrontError::Refused(_)) => into.push_slice(b"refused\n".as_slice()),
        Err(FrontError::NoMemory) => Err(NoMemory),
    }
}

/// Shows the code of the first unit of a program.
fn show_program(alloc: Global, program: &Program, into: &mut Bytes) -> Result<(), NoMemory>
    requires { IsSound program.now }
{
    if program.layout.entities.len() > 1_000_000 {
        return into.push_slice(b"too many names\n".as_slice());
    }
    match program.units.as_slice() {
        [] => Ok(()),
        [first, ..] => show_unit(
            alloc,
            program.units.as_slice(),
            program.loops.as_slice(),
            &program.layout,
            0,
            first.listing.as_slice(),
            into,
        ),
    }
}
