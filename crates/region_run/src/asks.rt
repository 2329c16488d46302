//! Processes that say what they do next before they do it.
ghost use Rattle.std.specs.Prelude.{◌≡◌, ◌<◌, ℕ, ℤ, IfOk};
ghost use Rattle.hyb_base.specs.declared.ops.RedOp.{RedOp};
ghost use Rattle.interleaving.specs.Machine.{Event};
ghost use Rattle.interleaving.specs.OwnCells.{Start};
ghost use Rattle.region_run.specs.Asked.{asked_of, IsWithin, IsRead, IsDone};

use hyb_base::no_memory::NoMemory;
use hyb_base::ops::RedOp;
use std::alloc::Global;

/// What a process does next.
#[derive(Clone, Copy)]
pub enum Asked<F> {
    /// It reads a cell.
    Reads {
        /// The address of the cell.
        address: u32,
        /// The operator, where the read belongs to an accumulation.
        by: Option<RedOp>,
    },
    /// It writes a cell.
    Writes {
        /// The address of the cell.
        address: u32,
        /// The value that it writes.
        value: i64,
        /// The operator, where the write belongs to an accumulation.
        by: Option<RedOp>,
    },
    /// Control moves, and no cell is read or written.
    Moves,
    /// Its iteration ends.
    Ends,
    /// It meets a fault.
    Faults(F),
}

/// A process of a program, inside an iteration of a loop.
///
/// It tells its next event before it takes the step, so that a region answers its reads and keeps its writes. Only `copy` takes
/// memory.
pub trait Asks: Drop {
    /// The program that the process belongs to.
    type Program;

    /// Why a process can't go on.
    type Fault: Copy;

    // What a process means.
    ghost Meant: { Type 0 };

    ghost meant: { Self → Meant };

    // Its next event; how it goes on after a read that got this answer, and after a write or a move.
    ghost event: { Self.Program → Meant → Event RedOp ℤ };

    ghost resumed: { Self.Program → Meant → ℤ → Meant };

    ghost done: { Self.Program → Meant → Meant };

    // The fault that it meets, where its event is one; the line of its statement.
    ghost fault: { Self.Program → Meant → Self.Fault };

    ghost line_of: { Meant → ℕ };

    // Of the loop that begins with this process: the iteration of a number, counted from 0, before its first step; and the process that
    // follows the loop.
    ghost start: { Self.Program → Meant → ℕ → Start Meant ℤ };

    ghost following: { Self.Program → Meant → Meant };

    // A process of the program, with the room that its steps need; the number of cells of the program's storage.
    ghost is_of: { Self.Program → Self → Type 0 };

    ghost total: { Self.Program → ℕ };

    /// A process that means the same.
    fn copy(&self, alloc: Global) -> Result<Self, NoMemory>
        ensures same { IfOk result (λ copy. meant copy ≡ meant self.now) }
        ensures is_of { IfOk result (λ copy. (program : Self.Program) → is_of program self.now → is_of program copy) };

    /// The line of the statement at which it is.
    fn line(&self) -> u32
        ensures { result ≡ line_of (meant self.now) };

    /// What it does next, without doing it.
    fn ask(&mut self, program: &Self::Program) -> Asked<Self::Fault>
        requires is_of { is_of program.now self.old }
        ensures asked { result ≡ asked_of (fault program.now (meant self.old)) (event program.now (meant self.old)) }
        ensures within { IsWithin (total program.now) result }
        ensures same { meant self.new ≡ meant self.old }
        ensures is_of { is_of program.now self.new };

    /// Takes the step of a read that gets this answer.
    fn resume(&mut self, program: &Self::Program, value: i64)
        requires is_of { is_of program.now self.old }
        requires reads { IsRead (event program.now (meant self.old)) }
        ensures resumed { meant self.new ≡ resumed program.now (meant self.old) value }
        ensures is_of { is_of program.now self.new };

    /// Takes the step of a write or a move.
    fn go_on(&mut self, program: &Self::Program)
        requires is_of { is_of program.now self.old }
        requires done { IsDone (event program.now (meant self.old)) }
        ensures done { meant self.new ≡ done program.now (meant self.old) }
        ensures is_of { is_of program.now self.new };

    /// Becomes the beginning of an iteration, counted from 0, of the loop that begins with the process `entry`. The answer is the
    /// value of the loop's variable in that iteration.
    fn begin(&mut self, program: &Self::Program, entry: &Self, number: u64) -> i64
        requires is_of { is_of program.now self.old }
        requires entry { is_of program.now entry.now }
        ensures process { meant self.new ≡ (start program.now (meant entry.now) number).process }
        ensures value { result ≡ (start program.now (meant entry.now) number).value }
        ensures is_of { is_of program.now self.new };

    /// Leaves the loop that begins with it, and becomes the process that follows.
    fn leave(&mut self, program: &Self::Program)
        requires is_of { is_of program.now self.old }
        ensures left { meant self.new ≡ following program.now (meant self.old) }
        ensures is_of { is_of program.now self.new };
}
