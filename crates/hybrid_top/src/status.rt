//! How a command ends.
ghost use Rattle.std.specs.Prelude.{◌≡◌};

use f77_ast::fault::Fault;
use f77_ast::refusal::Refusal;

/// How a command ended.
#[derive(Clone, Copy, Debug, PartialEq, Eq)]
pub enum Status {
    /// The command did all that it says.
    Done,
    /// The words fit no row of the command table.
    Usage,
    /// The program's bytes aren't accepted.
    Refused(Refusal),
    /// This line of the schedule is the first that breaks its form.
    BadSchedule(u32),
    /// The run stopped by a fault, at the statement of this line.
    Faulted(Fault, u32),
    /// The steps are done, and the run hasn't ended.
    StepsSpent,
    /// A read of a file failed.
    ReadFault,
    /// A write to a sink failed.
    WriteFault,
    /// No memory was to be had.
    NoMemory,
    /// A file has too many bytes: 1 is the program, 2 the input, 3 the schedule.
    FileLimit(u8),
}

impl Status {
    ghost use Rattle.hybrid_top.specs.StatusText.{exit_code_of};

    /// The exit code of the program, 0 to 9.
    pub fn code(self) -> u8
        ensures { result ≡ exit_code_of self }
    {
        match self {
            Status::Done => 0,
            Status::Usage => 1,
            Status::Refused(_) => 2,
            Status::BadSchedule(_) => 3,
            Status::Faulted(_, _) => 4,
            Status::StepsSpent => 5,
            Status::ReadFault => 6,
            Status::WriteFault => 7,
            Status::NoMemory => 8,
            Status::FileLimit(_) => 9,
        }
    }
}
