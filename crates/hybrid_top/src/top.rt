//! The top call.
ghost use Rattle.std.specs.Prelude.{◌≡◌, ◌≢◌, ◌⊎◌, ℕ, [], None, true};
ghost use Rattle.std.specs.Option.{ForSome};
ghost use Rattle.hyb_base.specs.Count.{Rose};
ghost use Rattle.hyb_outside.specs.Pieces.{sinks, OneRose};
ghost use Rattle.hyb_outside.specs.SinkSeen.{Takes};
ghost use Rattle.hybrid_top.specs.Answer.{stops, Gives, Performed, Answered};
ghost use Rattle.hybrid_top.specs.Causes.{FileLimitComes, FileLimitOnly, RefusedComes, RefusedOnly, RunOnly, RunComes, RunCompletes, is_before_run, EndsGiven};
ghost use Rattle.hybrid_top.specs.Command.{command_of};
ghost use Rattle.hybrid_top.specs.Prepared.{MayRead};
ghost use Rattle.hybrid_top.specs.Reading.{Keeps};
ghost use Rattle.hybrid_top.specs.StatusText.{status_text};

use crate::command::command;
use crate::prepare::prepare;
use crate::run::run;
use crate::status::Status;
use crate::status_line::StatusLine;
use hyb_base::words::Words;
use hyb_outside::files::Files;
use hyb_outside::pieces::{SinkName, put};
use hyb_outside::sink::Sink;
use std::alloc::Global;

/// Does what the words ask for, up to the status line.
fn perform<F: Files, O: Sink, N: Sink, Q: Sink>(
    alloc: Global,
    words: &Words,
    files: &mut F,
    out: &mut O,
    notes: &mut N,
    order: &mut Q,
) -> Status
    requires { ForSome (command_of words.now) (MayRead (F.seen files.old)) }
    ensures performed { Performed (command_of words.now) (F.seen files.old) (F.seen files.new) result
        (sinks (O.seen out.old) (N.seen notes.old) (Q.seen order.old))
        (sinks (O.seen out.new) (N.seen notes.new) (Q.seen order.new)) }
    ensures ends { EndsGiven result (F.seen files.old).ends (F.seen files.new).ends }
    ensures keeps { Keeps (F.seen files.old) (F.seen files.new) }
{
    match command(words) {
        None => Status::Usage,
        Some(command) => match prepare(alloc, &command, files) {
            Ok(machine) => run(machine, command.steps, out, notes, order),
            Err(status) => status,
        },
    }
}

/// Writes the status line as the last act, and tells the status: `WriteFault` where that write failed.
pub fn conclude<O: Sink, N: Sink, Q: Sink>(
    status: Status,
    out: &mut O,
    notes: &mut N,
    order: &mut Q,
) -> Status
    requires { status ≢ Status.WriteFault }
    ensures { Gives (stops status) result
        (sinks (O.seen out.old) (N.seen notes.old) (Q.seen order.old))
        (sinks (O.seen out.new) (N.seen notes.new) (Q.seen order.new)) }
{
    if status == Status::Done {
        return status;
    }
    let line = StatusLine::new(status);
    match put(SinkName::Notes, line.as_slice(), out, notes, order) {
        Ok(()) => status,
        Err(_failed) => Status::WriteFault,
    }
}

/// Does what the words ask for, and tells its status.
fn answer<F: Files, O: Sink, N: Sink, Q: Sink>(
    alloc: Global,
    words: &Words,
    files: &mut F,
    out: &mut O,
    notes: &mut N,
    order: &mut Q,
) -> Status
    requires { ForSome (command_of words.now) (MayRead (F.seen files.old)) }
    ensures answered { Answered (command_of words.now) (F.seen files.old) (F.seen files.new) result
        (sinks (O.seen out.old) (N.seen notes.old) (Q.seen order.old))
        (sinks (O.seen out.new) (N.seen notes.new) (Q.seen order.new)) }
    ensures ends { EndsGiven result (F.seen files.old).ends (F.seen files.new).ends }
    ensures keeps { Keeps (F.seen files.old) (F.seen files.new) }
{
    let status = perform(alloc, words, files, out, notes, order);
    if status == Status::WriteFault {
        return status;
    }
    conclude(status, out, notes, order)
}

/// Does what the words after the program's name ask for: reads files, runs a program, writes its lines to `out`
/// and the status line to `notes`.
///
/// The names of the files that the words ask for have to be names that may be asked for. The status is the first
/// of these that fits, in this order: `Usage`; the program is read (`ReadFault`, `FileLimit(1)`); `Refused`; the
/// input is read (`ReadFault`, `FileLimit(2)`); the schedule is read (`ReadFault`, `FileLimit(3)`), and its bytes
/// aren't looked at; the run (`Done`, `Faulted`, `StepsSpent`). It yields to `NoMemory` before the first step, and
/// to `WriteFault`.
pub fn hybrid<F: Files, O: Sink, N: Sink, Q: Sink>(
    alloc: Global,
    words: &Words,
    files: &mut F,
    out: &mut O,
    notes: &mut N,
    order: &mut Q,
) -> Status
    requires { ForSome (command_of words.now) (MayRead (F.seen files.old)) }

    // The whole of it: the status and all pieces are those of one answer, and each answer has its cause; or the
    // sinks stop in one piece.
    ensures answered { Answered (command_of words.now) (F.seen files.old) (F.seen files.new) result
        (sinks (O.seen out.old) (N.seen notes.old) (Q.seen order.old))
        (sinks (O.seen out.new) (N.seen notes.new) (Q.seen order.new)) }

    // The run: the status is that of the sequential run, and `out` took its lines and nothing else.
    ensures run_only { RunOnly (command_of words.now) (F.seen files.old) result (O.seen out.old) (O.seen out.new) }
    ensures run { RunComes (command_of words.now) (F.seen files.old) (F.seen files.new) result }
    ensures complete { RunCompletes (command_of words.now) (F.seen files.old) (F.seen files.new) result
        (sinks (O.seen out.old) (N.seen notes.old) (Q.seen order.old))
        (sinks (O.seen out.new) (N.seen notes.new) (Q.seen order.new)) }

    // The other answers, each with its cause.
    ensures usage_only { result ≡ Status.Usage → command_of words.now ≡ None }
    ensures usage { command_of words.now ≡ None → (result ≡ Status.Usage) ⊎ (result ≡ Status.WriteFault) }
    ensures read_fault { result ≡ Status.ReadFault → Rose (F.seen files.old).faults (F.seen files.new).faults }
    ensures write_fault { result ≡ Status.WriteFault → OneRose
        (sinks (O.seen out.old) (N.seen notes.old) (Q.seen order.old))
        (sinks (O.seen out.new) (N.seen notes.new) (Q.seen order.new)) }
    ensures file_limit_only { FileLimitOnly (command_of words.now) (F.seen files.old) result }
    ensures file_limit { FileLimitComes (command_of words.now) (F.seen files.old) (F.seen files.new) result }
    ensures refused_only { RefusedOnly (command_of words.now) (F.seen files.old) result }
    ensures refused { RefusedComes (command_of words.now) (F.seen files.old) (F.seen files.new) result }
    ensures no_bad_schedule { (line : ℕ) → result ≢ Status.BadSchedule line }

    // What the sinks took, and which files were read to their end.
    ensures out_untouched { is_before_run result ≡ true → Takes [] (O.seen out.old) (O.seen out.new) }
    ensures notes { result ≢ Status.WriteFault → Takes (status_text result) (N.seen notes.old) (N.seen notes.new) }
    ensures order_untouched { (Q.seen order.new).taken ≡ (Q.seen order.old).taken }
    ensures ends { EndsGiven result (F.seen files.old).ends (F.seen files.new).ends }

    // What the files hold and which may be asked for is as before, and no count fell.
    ensures keeps { Keeps (F.seen files.old) (F.seen files.new) }
{
    answer(alloc, words, files, out, notes, order)
}
