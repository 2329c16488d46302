//! How a schedule is read, line by line.
ghost use Rattle.std.specs.Prelude.{◌≡◌, ◌+◌, ◌^◌, ◌<◌, ◌≤◌, ℕ, [], length, Ok, Err, IfOk, IsErrOf};
ghost use Rattle.std.specs.Str.Lines.{lines};
ghost use Rattle.sched_text.specs.Form.{list_of, pushed};
ghost use Rattle.sched_text.specs.Schedules.{IsSchedule, Spells, IsBadLine};
ghost use Rattle.sched_text.specs.Reading.{bad_end, after_list, lists, picks_from, schedule_from};

use crate::lines::next_line;
use crate::schedule::{Picks, Schedule, ScheduleError};
use crate::spelling::{push_list, seed_of, window_of};
use hyb_base::nums::Nums;
use std::alloc::Global;

/// The schedule of a text.
///
/// Lines end at LF, and a CR directly before LF is dropped; bytes after the last LF are a line where there are any. The
/// first line is `WINDOW w`, w from 1 to 4,096. Then comes one line `MIX s`, or one or more lines `LIST p p p` with one
/// number or more. Only empty lines may follow. There is one blank before each number, and no other. A number is one or
/// more digits, with any zeros in front, and is less than 2^64. The picks of a list are the numbers of all its lines,
/// in order.
///
/// `Bad(n)` exactly where the text spells no schedule: n is the least number such that no text that spells a schedule begins
/// with lines 1 to n; where there is no such number a line is missing, and n is the number of lines plus 1. `NoMemory`
/// where no memory was to be had. The text is read once, from the first line to the last.
pub fn read(alloc: Global, text: &[u8]) -> Result<Schedule, ScheduleError>
    requires { length text.now < 2 ^ 32 }
    ensures schedule { IfOk result IsSchedule }
    ensures spelled { IfOk result (Spells (lines text.now)) }
    ensures bad { (line : ℕ) → IsErrOf result (ScheduleError.Bad line) → IsBadLine (lines text.now) line }
{
    read_lines(alloc, text)
}

/// The schedule of a text, by its lines in order.
fn read_lines(alloc: Global, text: &[u8]) -> Result<Schedule, ScheduleError>
    requires { length text.now < 2 ^ 32 }
    ensures ok { IfOk result (λ schedule. schedule_from (lines text.now) ≡ Ok schedule) }
    ensures bad { (line : ℕ) → IsErrOf result (ScheduleError.Bad line) → schedule_from (lines text.now) ≡ Err line }
{
    match next_line(text) {
        None => Err(ScheduleError::Bad(1)),
        Some((line, rest)) => match window_of(line) {
            None => Err(ScheduleError::Bad(1)),
            Some(window) => {
                let picks = read_picks(alloc, rest)?;
                Ok(Schedule { window, picks })
            }
        },
    }
}

/// The picks of a schedule, from its second line on.
fn read_picks(alloc: Global, text: &[u8]) -> Result<Picks, ScheduleError>
    requires { length text.now + 1 < 2 ^ 32 }
    ensures ok { IfOk result (λ picks. picks_from (lines text.now) ≡ Ok picks) }
    ensures bad { (line : ℕ) → IsErrOf result (ScheduleError.Bad line) → picks_from (lines text.now) ≡ Err line }
{
    match next_line(text) {
        None => Err(ScheduleError::Bad(2)),
        Some((line, rest)) => match seed_of(line) {
            Some(seed) => match first_filled(3, rest) {
                None => Ok(Picks::Mix(seed)),
                Some(number) => Err(ScheduleError::Bad(number)),
            },
            None => {
                let picks = read_lists(alloc, line, rest)?;
                Ok(Picks::List(picks))
            }
        },
    }
}

/// The picks of lists, the first of which is on the schedule's second line.
fn read_lists(alloc: Global, first: &[u8], text: &[u8]) -> Result<Nums, ScheduleError>
    requires { length text.now + 2 < 2 ^ 32 }
    ensures ok { IfOk result (λ picks. after_list (pushed (list_of first.now) []) (lists (lines text.now) 3) 2 ≡ Ok picks) }
    ensures bad { (line : ℕ) → IsErrOf result (ScheduleError.Bad line) → after_list (pushed (list_of first.now) []) (lists (lines text.now) 3) 2 ≡ Err line }
{
    let mut picks = Nums::new(alloc);
    if !push_list(first, &mut picks)? {
        return Err(ScheduleError::Bad(2));
    }
    let mut left = text;
    let mut number: usize = 3;
    while let Some((line, rest)) = next_line(left) {
        if line.is_empty() {
            break;
        }
        if !push_list(line, &mut picks)? {
            return Err(ScheduleError::Bad(number as u32));
        }
        left = rest;
        number += 1;
    }
    match first_filled(number, left) {
        None => Ok(picks),
        Some(number) => Err(ScheduleError::Bad(number)),
    }
}

/// The number of the first line that isn't empty, where the first line of the text has this number.
fn first_filled(first: usize, text: &[u8]) -> Option<u32>
    requires { first + length text.now ≤ 2 ^ 32 }
    ensures { result ≡ bad_end (lines text.now) first }
{
    let mut left = text;
    let mut number = first;
    while let Some((line, rest)) = next_line(left) {
        if !line.is_empty() {
            return Some(number as u32);
        }
        left = rest;
        number += 1;
    }
    None
}
