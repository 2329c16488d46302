//! What a schedule file says.

use hyb_base::decimal::read_u64;
use hyb_base::nums::Nums;
use sched_text::read;
use sched_text::schedule::{Picks, Schedule, ScheduleError};
use std::alloc::{AllocError, Global};

/// The most picks of a list that are shown one by one.
const MOST_SHOWN: usize = 20;

/// The most bytes of a schedule file.
const LONGEST: usize = 16_777_216;

/// What a schedule file says, and the picks of some steps.
pub fn given(alloc: Global, steps: &[u8], source: &[u8]) -> Result<String, AllocError> {
    let mut text = String::new(alloc);
    if source.len() > LONGEST {
        text.push_str("too long\n")?;
        return Ok(text);
    }
    match read(alloc, source) {
        Err(ScheduleError::NoMemory) => text.push_str("no memory\n")?,
        Err(ScheduleError::Bad(line)) => writeln!(text, "BAD {line}")?,
        Ok(schedule) => {
            writeln!(text, "WINDOW {}", schedule.window)?;
            show_picks(&mut text, &schedule.picks)?;
            for word in steps.split(|byte| *byte == b' ') {
                if !word.is_empty() {
                    show_pick(&mut text, &schedule, word)?;
                }
            }
        }
    }
    Ok(text)
}

/// Shows where picks come from.
fn show_picks(text: &mut String, picks: &Picks) -> Result<(), AllocError> {
    match picks {
        Picks::Mix(seed) => writeln!(text, "MIX {seed}"),
        Picks::List(picks) => show_list(text, picks),
    }
}

/// Shows the picks of a list, or their number where there are many.
fn show_list(text: &mut String, picks: &Nums) -> Result<(), AllocError> {
    let picks = picks.as_slice();
    if picks.len() > MOST_SHOWN {
        return writeln!(text, "LIST of {} picks", picks.len());
    }
    text.push_str("LIST")?;
    for pick in picks {
        write!(text, " {}", pick.cast_unsigned())?;
    }
    text.push_str("\n")
}

/// Shows the pick of a step.
fn show_pick(text: &mut String, schedule: &Schedule, word: &[u8]) -> Result<(), AllocError> {
    match read_u64(word) {
        None => text.push_str("no number\n"),
        Some(step) => match &schedule.picks {
            Picks::List(picks) if picks.is_empty() => text.push_str("no pick\n"),
            _ => writeln!(text, "{step} {}", schedule.pick(step)),
        },
    }
}
