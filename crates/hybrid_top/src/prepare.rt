//! What is done before the first step of a run: the files are read, and the program is made.
ghost use Rattle.std.specs.Prelude.{◌≡◌, ◌+◌, ◌-◌, ◌^◌, ◌≤◌, min, length, Some, Ok, IfOk, IfErr, OnOk, IsTrue};
ghost use Rattle.hyb_base.specs.Count.{next_count, Rose};
ghost use Rattle.hybrid_top.specs.Answer.{stops, IsAnswer};
ghost use Rattle.hybrid_top.specs.Causes.{EndsGiven};
ghost use Rattle.hybrid_top.specs.Command.{request_of};
ghost use Rattle.f77_front.specs.Front.{front_of};
ghost use Rattle.f77_meaning.specs.Sound.{IsSound};
ghost use Rattle.hybrid_top.specs.Machine.{IsAtStart};
ghost use Rattle.hybrid_top.specs.Prepared.{IsPrepared, ReadStops, FrontStops, MayRead};
ghost use Rattle.hybrid_top.specs.Reading.{IsWhole, Keeps, file_limit};

use crate::command::RunCommand;
use crate::machine::{Machine, at_start};
use crate::read_file::{ReadError, read_file};
use crate::status::Status;
use f77_ast::program::Program;
use f77_ast::refusal::FrontError;
use f77_front::front::front;
use hyb_base::bytes::Bytes;
use hyb_base::no_memory::NoMemory;
use hyb_outside::files::Files;
use std::alloc::Global;

/// The bytes of a file, or the status with which the command stops.
fn read<F: Files>(alloc: Global, name: &[u8], file: u8, files: &mut F) -> Result<Bytes, Status>
    requires { IsTrue ((F.seen files.old).may_read name.now) }
    ensures whole { IfOk result (IsWhole ((F.seen files.old).content name.now)) }
    ensures end { OnOk result ((F.seen files.new).ends ≡ next_count (F.seen files.old).ends) }
    ensures stops { IfErr result (ReadStops file ((F.seen files.old).content name.now) (F.seen files.old) (F.seen files.new)) }
    ensures keeps { Keeps (F.seen files.old) (F.seen files.new) }
{
    match read_file(alloc, name, files) {
        Ok(bytes) => Ok(bytes),
        Err(ReadError::Fault) => Err(Status::ReadFault),
        Err(ReadError::TooLong) => Err(Status::FileLimit(file)),
        Err(ReadError::NoMemory) => Err(Status::NoMemory),
    }
}

/// The program that bytes make, or the status with which the command stops.
fn accept(alloc: Global, bytes: &[u8]) -> Result<Program, Status>
    requires { length bytes.now ≤ file_limit }
    ensures accepted { IfOk result (λ program. front_of bytes.now ≡ Ok program) }
    ensures sound { IfOk result IsSound }
    ensures stops { IfErr result (FrontStops bytes.now) }
{
    match front(alloc, bytes) {
        Ok(program) => Ok(program),
        Err(FrontError::Refused(refusal)) => Err(Status::Refused(refusal)),
        Err(FrontError::NoMemory) => Err(Status::NoMemory),
    }
}

/// A machine at its start, or the status with which the command stops.
fn start(alloc: Global, program: Program, input: Bytes) -> Result<Machine, Status>
    requires { IsSound program }
    ensures machine { IfOk result (IsAtStart program input) }
    ensures stops { IfErr result (λ stop. stop ≡ Status.NoMemory) }
{
    match at_start(alloc, program, input) {
        Ok(machine) => Ok(machine),
        Err(NoMemory) => Err(Status::NoMemory),
    }
}

/// Reads the program and makes it, reads the input and the schedule, each to its end, and then takes all memory of
/// the run.
///
/// The bytes of the schedule aren't looked at.
pub fn prepare<F: Files>(
    alloc: Global,
    command: &RunCommand<'_>,
    files: &mut F,
) -> Result<Machine, Status>
    requires { MayRead (F.seen files.old) (request_of command.now) }
    ensures prepared { IfOk result (IsPrepared (F.seen files.old) (request_of command.now)) }
    ensures stops { IfErr result (λ s. IsAnswer (F.seen files.old) (F.seen files.new) (Some (request_of command.now)) (stops s)) }
    ensures ends { OnOk result ((F.seen files.new).ends ≡ next_count (next_count (next_count (F.seen files.old).ends))) }
    ensures ends_at_stop { IfErr result (λ s. EndsGiven s (F.seen files.old).ends (F.seen files.new).ends) }
    ensures keeps { Keeps (F.seen files.old) (F.seen files.new) }
{
    let bytes = read(alloc, command.program, 1, files)?;
    let program = accept(alloc, bytes.as_slice())?;
    let input = read(alloc, command.input, 2, files)?;
    let _schedule = read(alloc, command.schedule, 3, files)?;
    start(alloc, program, input)
}
