//! The cases of a file.

use crate::case::{Case, Unreadable};
use row_lines::line::{Line, UnreadableLine};
use row_lines::lines;
use row_lines::mark::Mark;
use std::alloc::{AllocError, Global};

/// The cases that are read by now, and the one that is being read.
#[derive(Drop)]
struct Reading {
    alloc: Global,
    group: Option<Vec<u8>>,
    begun: Option<Case>,
    cases: Vec<Result<Case, Unreadable>>,
}

impl Reading {
    /// No case yet.
    fn new(alloc: Global) -> Reading {
        Reading {
            alloc,
            group: None,
            begun: None,
            cases: Vec::new(alloc),
        }
    }

    /// Adds the case that is being read, which ends here.
    fn end_case(&mut self) -> Result<(), AllocError> {
        match self.begun.take() {
            None => Ok(()),
            Some(case) => {
                let read = if case.wanted_lines == 0 {
                    Err(Unreadable::NothingWanted(case.line))
                } else {
                    Ok(case)
                };
                self.cases.push(read)?;
                Ok(())
            }
        }
    }

    /// Begins a group.
    fn take_name(&mut self, name: Vec<u8>) -> Result<(), AllocError> {
        self.end_case()?;
        self.group = Some(name);
        Ok(())
    }

    /// Adds a line of source to the case that is being read, while nothing is wanted of it yet, or begins the next one.
    fn take_source(&mut self, number: u64, text: Vec<u8>) -> Result<(), AllocError> {
        if let Some(case) = &mut self.begun {
            if case.wanted_lines == 0 {
                case.source.extend_from_slice(&text)?;
                return Ok(());
            }
        }
        self.end_case()?;
        self.begin(number, text)
    }

    /// Begins a case with its first line of source.
    fn begin(&mut self, number: u64, text: Vec<u8>) -> Result<(), AllocError> {
        match &self.group {
            None => self.cases.push(Err(Unreadable::NoGroup(number)))?,
            Some(group) => {
                self.begun = Some(Case {
                    line: number,
                    group: group.clone()?,
                    source: text,
                    wanted_lines: 0,
                    wanted: Vec::new(self.alloc),
                });
            }
        }
        Ok(())
    }

    /// Adds a line of what is wanted, without the blank at its front.
    fn take_wanted(&mut self, number: u64, text: &[u8]) -> Result<(), AllocError> {
        match &mut self.begun {
            None => self.cases.push(Err(Unreadable::NoSource(number)))?,
            Some(case) => {
                case.wanted_lines = case.wanted_lines.saturating_add(1);
                let text = text.strip_prefix(b" ".as_slice()).unwrap_or(text);
                case.wanted.extend_from_slice(text)?;
            }
        }
        Ok(())
    }

    /// Takes a line.
    fn take_line(&mut self, line: Line) -> Result<(), AllocError> {
        match line.mark {
            Mark::Name => self.take_name(line.text),
            Mark::Source => self.take_source(line.number, line.text),
            Mark::Printed => self.take_wanted(line.number, &line.text),
            Mark::Input
            | Mark::Schedule
            | Mark::Command
            | Mark::Failing
            | Mark::End
            | Mark::Note
            | Mark::Ordered => {
                self.cases.push(Err(Unreadable::WrongMark(line.number)))?;
                Ok(())
            }
        }
    }

    /// Takes a line that was read or not.
    fn take(&mut self, line: Result<Line, UnreadableLine>) -> Result<(), AllocError> {
        match line {
            Ok(line) => self.take_line(line),
            Err(unreadable) => {
                self.cases.push(Err(Unreadable::Line(unreadable)))?;
                Ok(())
            }
        }
    }
}

/// The cases of a file in their order, and what of it can't be read, at its place among them. The other lines of a case
/// are read as if one that can't be read weren't there.
pub fn cases(alloc: Global, file: &[u8]) -> Result<Vec<Result<Case, Unreadable>>, AllocError> {
    let mut reading = Reading::new(alloc);
    for line in lines(alloc, file)? {
        reading.take(line)?;
    }
    reading.end_case()?;
    if reading.cases.is_empty() {
        reading.cases.push(Err(Unreadable::NoCase))?;
    }
    Ok(reading.cases)
}
