//! A row of which not all lines are read.

use crate::outcome::Outcome;
use crate::row::{Called, Command, FailingCall, Given, Row};
use crate::unreadable::{Cause, Unreadable};
use hyb_base::decimal::read_u64;
use row_lines::line::Line;
use row_lines::mark::Mark;
use std::alloc::{AllocError, Global};

/// A row of which not all lines are read.
#[derive(Drop)]
pub struct Draft {
    name: Vec<u8>,
    number: u64,
    words: Option<Vec<u8>>,
    given: Given,
    out: Vec<u8>,
    notes: Vec<u8>,
    order: Vec<u8>,
    end: Option<End>,
    unreadable: Option<Unreadable>,
}

/// The numbers of a line `=`.
#[derive(Clone, Copy)]
struct End {
    /// The number of the line.
    number: u64,
    code: u64,
    steps: Option<u64>,
}

impl Draft {
    /// A row with this name, at this line.
    pub fn new(alloc: Global, name: Vec<u8>, number: u64) -> Draft {
        Draft {
            name,
            number,
            words: None,
            given: Given {
                source: Vec::new(alloc),
                input: Vec::new(alloc),
                schedule: None,
                failing: Vec::new(alloc),
            },
            out: Vec::new(alloc),
            notes: Vec::new(alloc),
            order: Vec::new(alloc),
            end: None,
            unreadable: None,
        }
    }

    /// Lines without a name, of which this one is the first.
    pub fn unnamed(alloc: Global, number: u64) -> Draft {
        let mut draft = Draft::new(alloc, Vec::new(alloc), number);
        draft.refuse(number, Cause::NoName);
        draft
    }

    /// Notes that a line can't be read. The first such line is kept.
    pub fn refuse(&mut self, number: u64, cause: Cause) {
        if self.unreadable.is_none() {
            self.unreadable = Some(Unreadable { number, cause });
        }
    }

    /// Takes a line. One with a name is no line of this row.
    pub fn take(&mut self, alloc: Global, line: Line) -> Result<(), AllocError> {
        match line.mark {
            Mark::Name => {}
            Mark::Source => self.given.source.extend_from_slice(&line.text)?,
            Mark::Input => self.given.input.extend_from_slice(&line.text)?,
            Mark::Schedule => self.take_schedule(alloc, &line.text)?,
            Mark::Command => self.take_command(line.number, line.text),
            Mark::Failing => self.take_failing(line.number, &line.text)?,
            Mark::End => self.take_end(line.number, &line.text),
            Mark::Printed => self.out.extend_from_slice(&line.text)?,
            Mark::Note => self.notes.extend_from_slice(&line.text)?,
            Mark::Ordered => self.order.extend_from_slice(&line.text)?,
        }
        Ok(())
    }

    fn take_schedule(&mut self, alloc: Global, text: &[u8]) -> Result<(), AllocError> {
        let mut schedule = match self.given.schedule.take() {
            Some(schedule) => schedule,
            None => Vec::new(alloc),
        };
        schedule.extend_from_slice(text)?;
        self.given.schedule = Some(schedule);
        Ok(())
    }

    fn take_command(&mut self, number: u64, words: Vec<u8>) {
        if self.words.is_some() {
            self.refuse(number, Cause::SecondCommand);
        } else {
            self.words = Some(words);
        }
    }

    fn take_failing(&mut self, number: u64, text: &[u8]) -> Result<(), AllocError> {
        match read_failing(text) {
            Some(failing) => self.given.failing.push(failing)?,
            None => self.refuse(number, Cause::Failing),
        }
        Ok(())
    }

    fn take_end(&mut self, number: u64, text: &[u8]) {
        if self.end.is_some() {
            self.refuse(number, Cause::SecondEnd);
        }
        match read_end(number, text) {
            Some(end) => self.end = Some(end),
            None => self.refuse(number, Cause::End),
        }
    }

    /// The row, once all its lines are taken.
    pub fn finish(self) -> Result<Row, Unreadable> {
        if let Some(unreadable) = self.unreadable {
            return Err(unreadable);
        }
        let end = self.end.ok_or(Unreadable {
            number: self.number,
            cause: Cause::NoEnd,
        })?;
        let command = match (self.words, end.steps) {
            (None, Some(steps)) => Command::Run(steps),
            (Some(words), None) => Command::Words(words),
            _ => {
                return Err(Unreadable {
                    number: end.number,
                    cause: Cause::End,
                });
            }
        };
        Ok(Row {
            name: self.name,
            number: self.number,
            command,
            given: self.given,
            wanted: Outcome {
                code: end.code,
                out: self.out,
                notes: self.notes,
                order: Some(self.order),
            },
        })
    }
}

/// The numbers of a line `=`: an exit code, and a number of steps or nothing.
fn read_end(number: u64, text: &[u8]) -> Option<End> {
    let mut words = text
        .split(|byte| *byte == b' ')
        .filter(|word| !word.is_empty());
    let code = read_u64(words.next()?)?;
    let steps = match words.next() {
        Some(word) => Some(read_u64(word)?),
        None => None,
    };
    match words.next() {
        Some(_) => None,
        None => Some(End {
            number,
            code,
            steps,
        }),
    }
}

/// The call of a line `*`: what is called, and the number of the call, from 1.
fn read_failing(text: &[u8]) -> Option<FailingCall> {
    let mut words = text
        .split(|byte| *byte == b' ')
        .filter(|word| !word.is_empty());
    let called = called_by(words.next()?)?;
    let call = read_u64(words.next()?)?;
    if call == 0 || words.next().is_some() {
        return None;
    }
    Some(FailingCall { called, call })
}

/// What is called by the name of this word.
fn called_by(word: &[u8]) -> Option<Called> {
    match word {
        b"files" => Some(Called::Files),
        b"out" => Some(Called::Out),
        b"notes" => Some(Called::Notes),
        _ => None,
    }
}
