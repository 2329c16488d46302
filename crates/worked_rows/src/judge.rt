//! What a row gives in place of what it is to give.

use crate::outcome::Outcome;
use crate::row::{Command, Row};
use crate::run::{outcome, outcome_without_order};
use hyb_base::no_memory::NoMemory;
use std::alloc::Global;
use std::fmt;

/// A run of a row that gave something else than was wanted.
#[derive(Drop)]
pub struct Difference {
    /// Which run.
    pub run: Run,
    /// What it was to give.
    pub wanted: Outcome,
    /// What came.
    pub came: Outcome,
}

/// The runs of a row.
#[derive(Clone, Copy)]
pub enum Run {
    /// The command as the row says it, with `order` kept.
    AsItSays,
    /// The same with an `order` that keeps nothing.
    OrderDropped,
    /// A plain run with one step less than it takes.
    OneStepShort,
}

impl fmt::Display for Run {
    fn fmt<W: fmt::Write>(&self, f: &mut fmt::Formatter<W>) -> fmt::Result {
        match self {
            Run::AsItSays => write!(f, "as it says"),
            Run::OrderDropped => write!(f, "order dropped"),
            Run::OneStepShort => write!(f, "one step short"),
        }
    }
}

/// The first run of a row that differs, where one does.
pub fn first_difference(alloc: Global, row: &Row) -> Result<Option<Difference>, NoMemory> {
    let came = outcome(alloc, row, &row.command)?;
    if !came.is(&row.wanted) {
        return found(alloc, Run::AsItSays, row, came);
    }
    let came = outcome_without_order(alloc, row, &row.command)?;
    if !came.is(&row.wanted) {
        return found(alloc, Run::OrderDropped, row, came);
    }
    let Some(steps) = steps_short(row) else {
        return Ok(None);
    };
    let came = outcome_without_order(alloc, row, &Command::Run(steps))?;
    let wanted = spent(alloc, row)?;
    if came.is(&wanted) {
        return Ok(None);
    }
    Ok(Some(Difference {
        run: Run::OneStepShort,
        wanted,
        came,
    }))
}

/// A difference from what the row itself wants.
fn found(
    alloc: Global,
    run: Run,
    row: &Row,
    came: Outcome,
) -> Result<Option<Difference>, NoMemory> {
    let wanted = row.wanted.copy(alloc)?;
    Ok(Some(Difference { run, wanted, came }))
}

/// One step less than a row takes, where it is a plain run that ends or faults after two steps or more. Where a write of a
/// note is to fail it is left out, since the line `STEPS SPENT` couldn't be written.
fn steps_short(row: &Row) -> Option<u64> {
    match row.command {
        Command::Run(steps)
            if steps >= 2 && is_counted(row.wanted.code) && !row.given.fails_notes() => {
            Some(steps - 1)
        }
        _ => None,
    }
}

/// Whether a run with this exit code takes just its steps: it ended, or stopped by a fault.
fn is_counted(code: u64) -> bool {
    code == 0 || code == 4
}

/// What a row is to give one step short.
fn spent(alloc: Global, row: &Row) -> Result<Outcome, NoMemory> {
    Ok(Outcome {
        code: 5,
        out: Vec::from_slice(alloc, &row.wanted.out)?,
        notes: Vec::from_slice(alloc, b"STEPS SPENT\n")?,
        order: None,
    })
}
