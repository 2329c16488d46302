//! The words of a row: cells, picks, iterations.
ghost use Rattle.std.specs.Prelude.{◌≤◌, OnOk, length};

use crate::cell_mode::CellMode;
use crate::script::{Op, Script};
use hyb_base::ops::RedOp;
use sched_text::schedule::{Picks, Schedule};
use std::alloc::{AllocError, Global};

/// The most iterations, operations or picks that one line may stand for.
const MOST: u64 = 20_000_000;

/// The operators.
const OPERATORS: [RedOp; 8] = [
    RedOp::Add,
    RedOp::Mul,
    RedOp::Max,
    RedOp::Min,
    RedOp::And,
    RedOp::Or,
    RedOp::Eqv,
    RedOp::Neqv,
];

/// The sign of an operator.
pub fn sign(op: RedOp) -> &'static str {
    match op {
        RedOp::Add => "+",
        RedOp::Mul => "*",
        RedOp::Max => "MAX",
        RedOp::Min => "MIN",
        RedOp::And => ".AND.",
        RedOp::Or => ".OR.",
        RedOp::Eqv => ".EQV.",
        RedOp::Neqv => ".NEQV.",
    }
}

/// The operator with a sign.
fn operator(word: &str) -> Option<RedOp> {
    OPERATORS.iter().find(|op| sign(**op) == word).copied()
}

/// The mode that a word names: `shared`, `private`, or the sign of an operator.
fn mode(word: &str) -> Option<CellMode> {
    match word {
        "shared" => Some(CellMode::Shared),
        "private" => Some(CellMode::Private),
        _ => Some(CellMode::Reduce(operator(word)?)),
    }
}

/// The mode of a cell, and what it holds: `private 5`.
pub fn cell(line: &str) -> Option<(CellMode, i64)> {
    let (word, value) = line.trim().split_once(" ")?;
    Some((mode(word)?, value.parse().ok()?))
}

/// A number of cell and a value: `5 10`.
fn cell_value(words: &str) -> Option<(u8, i64)> {
    let (cell, value) = words.split_once(" ")?;
    Some((cell.parse().ok()?, value.parse().ok()?))
}

/// The numbers of two cells: `5 6`.
fn two_cells(words: &str) -> Option<(u8, u8)> {
    let (from, to) = words.split_once(" ")?;
    Some((from.parse().ok()?, to.parse().ok()?))
}

/// `set CELL VALUE`.
fn set(words: &str) -> Option<Op> {
    let (to, value) = cell_value(words)?;
    Some(Op::Set { to, value })
}

/// `copy FROM TO`.
fn copy(words: &str) -> Option<Op> {
    let (from, to) = two_cells(words)?;
    Some(Op::Copy { from, to })
}

/// `reduce OPERATOR CELL VALUE`.
fn accumulate(words: &str) -> Option<Op> {
    let (op, rest) = words.split_once(" ")?;
    let by = operator(op)?;
    let (to, value) = cell_value(rest)?;
    Some(Op::Accumulate { by, to, value })
}

/// The operation that words are: `set CELL VALUE`, `copy FROM TO`, `reduce OPERATOR CELL VALUE`, `move`, `fault`.
fn op(words: &str) -> Option<Op> {
    match words {
        "move" => Some(Op::Move),
        "fault" => Some(Op::Fault),
        _ => {
            let (first, rest) = words.split_once(" ")?;
            match first {
                "set" => set(rest),
                "copy" => copy(rest),
                "reduce" => accumulate(rest),
                _ => None,
            }
        }
    }
}

/// Adds an iteration: its operations, with `;` between them. Whether each can be read.
fn add_iteration(script: &mut Script, words: &str) -> Result<bool, AllocError> {
    script.starts.push(script.ops.len())?;
    for part in words.split(";") {
        match op(part.trim()) {
            Some(op) => script.ops.push(op)?,
            None => return Ok(false),
        }
    }
    script.ops.push(Op::End)?;
    Ok(true)
}

/// How many iterations a line is, and their operations: `3 times move`.
fn times(line: &str) -> (u64, &str) {
    match line.split_once(" times ") {
        None => (1, line),
        Some((count, rest)) => match count.parse::<u64>() {
            Ok(count) => (count.min(MOST), rest),
            Err(_) => (1, line),
        },
    }
}

/// Adds the iterations of a line. Whether they can be read.
pub fn add_line(script: &mut Script, line: &str) -> Result<bool, AllocError> {
    let (count, words) = times(line);
    for _ in 0..count {
        if !add_iteration(script, words)? {
            return Ok(false);
        }
    }
    Ok(true)
}

/// The first picks of a schedule that mixes them from a seed.
fn add_mixed(picks: &mut Vec<u64>, seed: u64, count: u64) -> Result<(), AllocError> {
    let schedule = Schedule {
        window: 1,
        picks: Picks::Mix(seed),
    };
    for k in 0..count.min(MOST) {
        picks.push(schedule.pick(k))?;
    }
    Ok(())
}

/// The seed and the number of picks: `mix 7 100`.
fn mix(line: &str) -> Option<(u64, u64)> {
    let words = line.trim().strip_prefix("mix ")?;
    let (seed, count) = words.split_once(" ")?;
    Some((seed.parse().ok()?, count.parse().ok()?))
}

/// Adds picks that are listed. Whether each can be read.
fn add_listed(picks: &mut Vec<u64>, line: &str) -> Result<bool, AllocError> {
    for word in line.split_whitespace() {
        match word.parse::<u64>() {
            Ok(pick) => picks.push(pick)?,
            Err(_) => return Ok(false),
        }
    }
    Ok(true)
}

/// Adds the picks of a line, listed or mixed. Whether they can be read.
pub fn add_picks(picks: &mut Vec<u64>, line: &str) -> Result<bool, AllocError> {
    match mix(line) {
        Some((seed, count)) => {
            add_mixed(picks, seed, count)?;
            Ok(true)
        }
        None => add_listed(picks, line),
    }
}
