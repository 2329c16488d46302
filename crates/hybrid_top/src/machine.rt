//! What a run needs, taken before its first step.
ghost use Rattle.std.specs.Prelude.{◌≡◌, IfOk};
ghost use Rattle.f77_meaning.specs.Sound.{IsSound};
ghost use Rattle.hybrid_top.specs.Machine.{IsAtStart};

use f77_ast::program::Program;
use f77_io::input::Input;
use f77_io::line::Line;
use f77_machine::process::Process;
use f77_machine::store::Store;
use hyb_base::bytes::Bytes;
use hyb_base::no_memory::NoMemory;
use std::alloc::Global;

/// A program, the process that runs it, its storage, its input and the line that it prints.
#[derive(Drop)]
pub struct Machine {
    /// The accepted program.
    pub program: Program,
    /// Its process.
    pub process: Process,
    /// Its storage.
    pub store: Store,
    /// Its input.
    pub input: Input,
    /// The line that it prints.
    pub line: Line,
}

/// A machine before the first step. It takes all memory of the run.
pub fn at_start(alloc: Global, program: Program, input: Bytes) -> Result<Machine, NoMemory>
    requires { IsSound program }
    ensures { IfOk result (IsAtStart program input) }
{
    let process = Process::new(alloc, &program)?;
    let store = Store::new(alloc, &program.layout)?;
    let line = Line::new(alloc)?;
    Ok(Machine {
        program,
        process,
        store,
        input: Input::new(input),
        line,
    })
}
