//! A run: steps one after another, and the lines that they print.
ghost use Rattle.std.specs.Prelude.{◌≡◌};
ghost use Rattle.hyb_outside.specs.Pieces.{sinks};
ghost use Rattle.f77_meaning.specs.Run.{run_from};
ghost use Rattle.f77_io.specs.Input.{left_of};
ghost use Rattle.f77_io.specs.Line.{text_of};
ghost use Rattle.f77_machine.specs.Process.{process_of};
ghost use Rattle.f77_machine.specs.Store.{values_of};
ghost use Rattle.hybrid_top.specs.Answer.{ran, Shows};
ghost use Rattle.hybrid_top.specs.Machine.{IsReady};

use crate::machine::Machine;
use crate::status::Status;
use f77_ast::step::Stepped;
use hyb_outside::pieces::{SinkName, put};
use hyb_outside::sink::Sink;

/// Runs at most `steps` steps. Each printed line goes to `out` with its LF, directly after its step.
///
/// `Done`, `Faulted` or `StepsSpent` by the end of the run, or `WriteFault` where a line couldn't be written.
pub fn run<O: Sink, N: Sink, Q: Sink>(
    machine: Machine,
    steps: u64,
    out: &mut O,
    notes: &mut N,
    order: &mut Q,
) -> Status
    requires { IsReady machine }
    ensures { Shows (ran (run_from machine.program (process_of machine.process (text_of machine.line)) (values_of machine.store) (left_of machine.input) steps)) result
        (sinks (O.seen out.old) (N.seen notes.old) (Q.seen order.old))
        (sinks (O.seen out.new) (N.seen notes.new) (Q.seen order.new)) }
{
    let Machine {
        program,
        mut process,
        mut store,
        mut input,
        mut line,
    } = machine;
    let mut left = steps;
    while left > 0 {
        left -= 1;
        let at = process.line();
        match process.step(&program, &mut store, &mut input, &mut line) {
            Stepped::Printed => {
                line.finish();
                match put(SinkName::Out, line.text(), out, notes, order) {
                    Ok(()) => line.clear(),
                    Err(_failed) => return Status::WriteFault,
                }
            }
            Stepped::Ended => return Status::Done,
            Stepped::Faulted(fault) => return Status::Faulted(fault, at),
            Stepped::Read { .. } => {}
            Stepped::Wrote { .. } => {}
            Stepped::Inner => {}
        }
    }
    Status::StepsSpent
}
