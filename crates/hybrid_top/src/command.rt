//! The words of a command.
ghost use Rattle.std.specs.Prelude.{◌≡◌, ◌<◌, IfSome};
ghost use Rattle.std.specs.Option.{option_map, option_copied};
ghost use Rattle.hybrid_top.specs.Command.{command_of, request_of, steps_of, command_by};

use hyb_base::decimal::read_u64;
use hyb_base::words::Words;

/// The greatest number of steps that may be asked for.
const STEP_LIMIT: u64 = 1_000_000_000;

/// `run PROG INPUT SCHED STEPS`.
#[derive(Clone, Copy)]
pub struct RunCommand<'a> {
    /// The name of the program's file, at least one byte.
    pub program: &'a [u8],
    /// The name of the input's file, at least one byte.
    pub input: &'a [u8],
    /// The name of the schedule's file, at least one byte.
    pub schedule: &'a [u8],
    /// The greatest number of steps, 1 to 1,000,000,000.
    pub steps: u64,
}

/// The number of steps that a word asks for: digits alone, at most ten, worth 1 to 1,000,000,000.
fn steps(word: &[u8]) -> Option<u64>
    ensures value { result ≡ steps_of word.now }
    ensures some { IfSome result (λ n. 0 < n) }
{
    let steps = read_u64(word)?;
    if word.len() <= 10 && 1 <= steps && steps <= STEP_LIMIT {
        Some(steps)
    } else {
        None
    }
}

/// The command of five words.
fn run_command<'a>(
    name: &'a [u8],
    program: &'a [u8],
    input: &'a [u8],
    schedule: &'a [u8],
    last: &'a [u8],
) -> Option<RunCommand<'a>>
    ensures request { option_map request_of result ≡ command_by name.now program.now input.now schedule.now last.now }
    ensures some_steps { IfSome result (λ c. 0 < c.steps) }
{
    if name != b"run".as_slice() || program.is_empty() || input.is_empty() || schedule.is_empty() {
        return None;
    }
    match steps(last) {
        Some(steps) => Some(RunCommand {
            program,
            input,
            schedule,
            steps,
        }),
        None => None,
    }
}

/// What the words after the program's name ask for: none exactly where they fit no row of the command table.
pub fn command(words: &Words) -> Option<RunCommand<'_>>
    ensures request { option_map request_of result ≡ command_of words.now }
    ensures some_steps { IfSome result (λ c. 0 < c.steps) }
{
    if words.len() != 5 {
        return None;
    }
    run_command(
        words.get(0)?,
        words.get(1)?,
        words.get(2)?,
        words.get(3)?,
        words.get(4)?,
    )
}
