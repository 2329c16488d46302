//! A small process, which does the operations of a script.
ghost use Rattle.std.specs.Prelude.{◌≡◌, ◌^◌, ◌%◌, ◌+◌, pos, length, slice_get, slice_index_or, IfOk};
ghost use Rattle.region_run.specs.Asked.{asked_of, IsWithin};
ghost use Rattle.turn_rows.specs.Walker.{event_of, stuck, place_of, HasRoom};

use crate::script::{Op, Script};
use hyb_base::no_memory::NoMemory;
use red_ops::apply;
use region_run::asks::{Asked, Asks};
use std::alloc::Global;

/// The number of cells: one for each address of a byte.
pub const CELLS: u32 = 256;

/// The one fault.
#[derive(Clone, Copy)]
pub struct Stuck;

/// A process in an iteration of a script.
#[derive(Drop)]
pub struct Walker {
    /// The index of its operation.
    at: usize,
    /// The answer to the read of its operation, once there is one. It has room for one from the beginning.
    answers: Vec<i64>,
}

impl Walker {
    /// The process with which the loop of a script begins.
    pub fn new(alloc: Global, script: &Script) -> Result<Walker, NoMemory>
        ensures { IfOk result HasRoom }
    {
        Ok(Walker {
            at: script.ops.len(),
            answers: Vec::with_capacity(alloc, 1)?,
        })
    }

    /// The answer to the read of its operation, once there is one.
    fn answer(&self) -> Option<i64>
        ensures { result ≡ slice_get self.now.answers.items 0 }
    {
        self.answers.get(0).copied()
    }
}

/// The operation at an index.
fn op_at(script: &Script, at: usize) -> Option<Op>
    ensures { result ≡ slice_get script.now.ops.items at }
{
    script.ops.get(at).copied()
}

/// What an operation does next, by the answer to its read.
fn asked_by(op: Option<Op>, answer: Option<i64>) -> Asked<Stuck>
    ensures asked { result ≡ asked_of stuck (event_of op answer) }
    ensures within { IsWithin 256 result }
{
    match op {
        None => Asked::Ends,
        Some(Op::Set { to, value }) => Asked::Writes {
            address: to as u32,
            value,
            by: None,
        },
        Some(Op::Copy { from, to }) => match answer {
            None => Asked::Reads {
                address: from as u32,
                by: None,
            },
            Some(value) => Asked::Writes {
                address: to as u32,
                value,
                by: None,
            },
        },
        Some(Op::Accumulate { by, to, value }) => match answer {
            None => Asked::Reads {
                address: to as u32,
                by: Some(by),
            },
            Some(by_now) => Asked::Writes {
                address: to as u32,
                value: apply(by, by_now, value),
                by: Some(by),
            },
        },
        Some(Op::Move) => Asked::Moves,
        Some(Op::Fault) => Asked::Faults(Stuck),
        Some(Op::End) => Asked::Ends,
    }
}

/// The index of the first operation of an iteration, counted from 0; that after the last one where there is no such iteration.
fn first_of(script: &Script, number: u64) -> usize
    ensures { result ≡ slice_index_or script.now.starts.items number (length script.now.ops.items) }
{
    match script.starts.get(number as usize) {
        Some(start) => *start,
        None => script.ops.len(),
    }
}

/// The value of the loop's variable in an iteration, counted from 0: 1 in the first one.
fn value_of(number: u64) -> i64
    ensures { result ≡ pos (number % 2 ^ 32 + 1) }
{
    (number % 4_294_967_296) as i64 + 1
}

impl Asks for Walker {
    type Program = Script;

    type Fault = Stuck;

    ghost use Rattle.turn_rows.specs.Walker.{Place, event_in, answered, next_op, start_in, place_after};

    ghost Meant = { Place };

    ghost meant = { place_of };

    ghost event = { event_in };

    ghost resumed = { answered };

    ghost done = { next_op };

    ghost fault = { λ script p. stuck };

    ghost line_of = { λ p. p.at % 2 ^ 32 };

    ghost start = { λ script p number. start_in script number };

    ghost following = { λ script p. place_after script };

    ghost is_of = { λ script walker. HasRoom walker };

    ghost total = { λ script. 256 };

    fn copy(&self, _alloc: Global) -> Result<Self, NoMemory> {
        let mut answers = self.answers.clone()?;
        answers.reserve(1)?;
        Ok(Walker {
            at: self.at,
            answers,
        })
    }

    fn line(&self) -> u32 {
        (self.at % 4_294_967_296) as u32
    }

    fn ask(&mut self, script: &Script) -> Asked<Stuck> {
        asked_by(op_at(script, self.at), self.answer())
    }

    fn resume(&mut self, _script: &Script, value: i64) {
        self.answers.clear();
        self.answers.push_reserved(value);
    }

    fn go_on(&mut self, script: &Script) {
        if self.at < script.ops.len() {
            self.at += 1;
        }
        self.answers.clear();
    }

    fn begin(&mut self, script: &Script, _entry: &Self, number: u64) -> i64 {
        self.at = first_of(script, number);
        self.answers.clear();
        value_of(number)
    }

    fn leave(&mut self, script: &Script) {
        self.at = script.ops.len();
        self.answers.clear();
    }
}
