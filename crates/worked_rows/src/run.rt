//! Runs of rows over files and sinks in memory.

use crate::outcome::Outcome;
use crate::row::{Called, Command, FailingCall, Given, Row};
use hyb_base::bytes::Bytes;
use hyb_base::no_memory::NoMemory;
use hyb_base::words::Words;
use hyb_outside::mem_files::MemFiles;
use hyb_outside::mem_sink::MemSink;
use hyb_outside::never_fails_sink::NeverFailsSink;
use hyb_outside::sink::Sink;
use hybrid_top::hybrid;
use std::alloc::Global;

/// The bytes for which a sink has room beyond those that are wanted.
const SPARE_ROOM: usize = 65_536;

/// What a row gives by a command, with an `order` that is kept in memory.
pub fn outcome(alloc: Global, row: &Row, command: &Command) -> Result<Outcome, NoMemory> {
    let wanted = row.wanted.order.as_ref().map_or(0, |order| order.len());
    let mut order = MemSink::new(alloc, room_for(wanted))?;
    let mut outcome = outcome_with(alloc, row, command, &mut order)?;
    outcome.order = Some(Vec::from_slice(alloc, order.taken())?);
    Ok(outcome)
}

/// What a row gives by a command, with an `order` that keeps nothing.
pub fn outcome_without_order(
    alloc: Global,
    row: &Row,
    command: &Command,
) -> Result<Outcome, NoMemory> {
    outcome_with(alloc, row, command, &mut NeverFailsSink::new())
}

/// What a row gives by a command, but for what `order` takes.
fn outcome_with<Q: Sink>(
    alloc: Global,
    row: &Row,
    command: &Command,
    order: &mut Q,
) -> Result<Outcome, NoMemory> {
    let failing = &row.given.failing;
    let words = words_of(alloc, command)?;
    let mut files = files(alloc, &row.given)?;
    let mut out = sink(alloc, row.wanted.out.len(), failing, Called::Out)?;
    let mut notes = sink(alloc, row.wanted.notes.len(), failing, Called::Notes)?;
    let status = hybrid(alloc, &words, &mut files, &mut out, &mut notes, order);
    Ok(Outcome {
        code: u64::from(status.code()),
        out: Vec::from_slice(alloc, out.taken())?,
        notes: Vec::from_slice(alloc, notes.taken())?,
        order: None,
    })
}

/// The words of a command.
fn words_of(alloc: Global, command: &Command) -> Result<Words, NoMemory> {
    match command {
        Command::Run(steps) => {
            let text = format!(in alloc; "run P I S {steps}")?;
            split_words(alloc, text.as_bytes())
        }
        Command::Words(text) => split_words(alloc, text),
    }
}

/// The words of a text, with blanks between them.
fn split_words(alloc: Global, text: &[u8]) -> Result<Words, NoMemory> {
    let mut words = Words::new(alloc);
    for word in text.split(|byte| *byte == b' ') {
        if !word.is_empty() {
            words.push(Bytes::from_slice(alloc, word)?)?;
        }
    }
    Ok(words)
}

/// The files P, I and S.
fn files(alloc: Global, given: &Given) -> Result<MemFiles, NoMemory> {
    let mut files = MemFiles::new(alloc);
    files.add(b"P", &given.source)?;
    files.add(b"I", &given.input)?;
    files.add(b"S", given.schedule())?;
    for failing in &given.failing {
        if failing.called == Called::Files {
            files.fail_at(failing.call)?;
        }
    }
    Ok(files)
}

/// The room of a sink that is to take `wanted` bytes: some more, so that a longer text shows.
fn room_for(wanted: usize) -> usize {
    wanted.saturating_add(SPARE_ROOM)
}

/// A sink that is to take `wanted` bytes, and fails at those of the failing calls that are its own.
fn sink(
    alloc: Global,
    wanted: usize,
    failing: &[FailingCall],
    called: Called,
) -> Result<MemSink, NoMemory> {
    let mut sink = MemSink::new(alloc, room_for(wanted))?;
    for failing in failing {
        if failing.called == called {
            sink.fail_at(failing.call)?;
        }
    }
    Ok(sink)
}
