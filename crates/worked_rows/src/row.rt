//! A row: a command over files in memory, and what it is to give.

use crate::outcome::Outcome;

/// The schedule of a row that has none.
const SCHEDULE: &[u8] = b"WINDOW 4\nMIX 1\n";

/// A worked row.
#[derive(Drop)]
pub struct Row {
    /// What it shows.
    pub name: Vec<u8>,
    /// The line of its name in its file, from 1.
    pub number: u64,
    /// The command.
    pub command: Command,
    /// What it is run on.
    pub given: Given,
    /// What it is to give. In its notes the word `?` stands for any number.
    pub wanted: Outcome,
}

/// The command of a row.
#[derive(Drop)]
pub enum Command {
    /// `run P I S` and this number of steps.
    Run(u64),
    /// These words, with blanks between them.
    Words(Vec<u8>),
}

/// What a command is run on.
#[derive(Drop)]
pub struct Given {
    /// The file P.
    pub source: Vec<u8>,
    /// The file I.
    pub input: Vec<u8>,
    /// The file S, where the row has one of its own.
    pub schedule: Option<Vec<u8>>,
    /// The calls that are to fail.
    pub failing: Vec<FailingCall>,
}

/// A call of a file or a sink that is to fail.
#[derive(Clone, Copy)]
pub struct FailingCall {
    /// What is called.
    pub called: Called,
    /// The number of the call, from 1.
    pub call: u64,
}

/// What is called.
#[derive(Clone, Copy, PartialEq, Eq)]
pub enum Called {
    /// A read of any of the three files.
    Files,
    /// A write of a printed line.
    Out,
    /// A write of a note.
    Notes,
}

impl Given {
    /// The file S.
    pub fn schedule(&self) -> &[u8] {
        match &self.schedule {
            Some(schedule) => schedule,
            None => SCHEDULE,
        }
    }

    /// Whether a write of a note is to fail.
    pub fn fails_notes(&self) -> bool {
        self.failing
            .iter()
            .any(|failing| failing.called == Called::Notes)
    }
}
