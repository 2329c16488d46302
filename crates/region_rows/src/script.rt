//! What a script of puts and commits shows.

use crate::copies::CopiesStage;
use crate::memory::Memory;
use crate::partials::PartialsStage;
use crate::regions::{GREAT, SMALL};
use hyb_base::no_memory::NoMemory;
use std::alloc::{AllocError, Global};

/// The most rounds that a script may ask for at once.
const MOST_ROUNDS: u64 = 10_000_000;

/// The number of cells of the great region.
const GREAT_CELLS: u64 = 1_000_000;

/// A line of a script.
#[derive(Clone, Copy)]
enum Line {
    /// `set A V`: a cell gets a value.
    Set(u32, i64),
    /// `put S A V`: a slot writes to an address.
    Put(u32, u32, i64),
    /// `get S A`: shows what a slot has at an address.
    Get(u32, u32),
    /// `commit S`: commits a slot.
    Commit(u32),
    /// `clear S`: forgets what a slot wrote.
    Clear(u32),
    /// `cells`: shows the cells of the small regions, and the number of reads by now.
    Cells,
    /// `cell A`: shows a cell.
    Cell(u32),
    /// `rounds N D`: N times a put of 1 to the great region and a commit, each D cells after the one before, round and round.
    Rounds(u64, u64),
}

/// What a slot has at an address.
#[derive(Clone, Copy)]
enum Found {
    /// There is no such slot or address.
    NoPlace,
    /// Nothing is written.
    Nothing,
    /// A number.
    Number(i64),
}

/// Copies or partial results.
#[derive(Drop)]
pub enum Stage {
    Copies(CopiesStage),
    Partials(PartialsStage),
}

impl Stage {
    /// Copies.
    pub fn copies(alloc: Global) -> Result<Stage, AllocError> {
        match CopiesStage::new(alloc) {
            Ok(stage) => Ok(Stage::Copies(stage)),
            Err(NoMemory) => Err(AllocError),
        }
    }

    /// Partial results.
    pub fn partials(alloc: Global) -> Result<Stage, AllocError> {
        match PartialsStage::new(alloc) {
            Ok(stage) => Ok(Stage::Partials(stage)),
            Err(NoMemory) => Err(AllocError),
        }
    }

    fn set(&mut self, address: u32, value: i64) -> bool {
        match self {
            Stage::Copies(stage) => stage.set(address, value),
            Stage::Partials(stage) => stage.set(address, value),
        }
    }

    fn put(&mut self, slot: u32, address: u32, value: i64) -> bool {
        match self {
            Stage::Copies(stage) => stage.put(slot, address, value),
            Stage::Partials(stage) => stage.put(slot, address, value),
        }
    }

    fn get(&self, slot: u32, address: u32) -> Found {
        match self {
            Stage::Copies(stage) => match stage.get(slot, address) {
                None => Found::NoPlace,
                Some(None) => Found::Nothing,
                Some(Some(number)) => Found::Number(number),
            },
            Stage::Partials(stage) => match stage.get(slot, address) {
                None => Found::NoPlace,
                Some(number) => Found::Number(number),
            },
        }
    }

    fn commit(&mut self, slot: u32) -> bool {
        match self {
            Stage::Copies(stage) => stage.commit(slot),
            Stage::Partials(stage) => stage.commit(slot),
        }
    }

    /// Partial results aren't cleared but by a commit.
    fn clear(&mut self, slot: u32) -> bool {
        match self {
            Stage::Copies(stage) => stage.clear(slot),
            Stage::Partials(_) => false,
        }
    }

    fn cells(&self) -> &Memory {
        match self {
            Stage::Copies(stage) => stage.cells(),
            Stage::Partials(stage) => stage.cells(),
        }
    }

    /// Runs rounds of a put and a commit. False where a put or commit has no place.
    fn rounds(&mut self, count: u64, step: u64) -> bool {
        let mut done = true;
        for round in 0..count {
            let cell = round.wrapping_mul(step) % GREAT_CELLS;
            done = self.put(0, GREAT + cell as u32, 1) && done;
            done = self.commit(0) && done;
        }
        done
    }
}

/// What a script shows.
pub fn given(alloc: Global, mut stage: Stage, script: &[u8]) -> Result<String, AllocError> {
    let mut text = String::new(alloc);
    for line in script.split(|byte| *byte == b'\n') {
        if !line.is_empty() {
            match read_line(line) {
                None => text.push_str("NO LINE\n")?,
                Some(line) => run(&mut text, &mut stage, line)?,
            }
        }
    }
    Ok(text)
}

/// Runs a line, and shows what it gives.
fn run(text: &mut String, stage: &mut Stage, line: Line) -> Result<(), AllocError> {
    match line {
        Line::Set(address, value) => show_done(text, stage.set(address, value)),
        Line::Put(slot, address, value) => show_done(text, stage.put(slot, address, value)),
        Line::Get(slot, address) => match stage.get(slot, address) {
            Found::NoPlace => text.push_str("NO PLACE\n"),
            Found::Nothing => text.push_str("NONE\n"),
            Found::Number(number) => writeln!(text, "{number}"),
        },
        Line::Commit(slot) => show_done(text, stage.commit(slot)),
        Line::Clear(slot) => show_done(text, stage.clear(slot)),
        Line::Cells => show_cells(text, stage.cells()),
        Line::Cell(address) => match stage.cells().as_slice().get(address as usize) {
            None => text.push_str("NO PLACE\n"),
            Some(value) => writeln!(text, "{value}"),
        },
        Line::Rounds(count, step) => show_done(text, stage.rounds(count.min(MOST_ROUNDS), step)),
    }
}

/// Shows a call without a place.
fn show_done(text: &mut String, done: bool) -> Result<(), AllocError> {
    if done {
        Ok(())
    } else {
        text.push_str("NO PLACE\n")
    }
}

/// Shows the cells of the small regions, and the number of reads by now.
fn show_cells(text: &mut String, cells: &Memory) -> Result<(), AllocError> {
    text.push_str("CELLS")?;
    for value in cells.as_slice().iter().take(SMALL as usize) {
        write!(text, " {value}")?;
    }
    writeln!(text, " READS {}", cells.reads())
}

/// Reads a line.
fn read_line(line: &[u8]) -> Option<Line> {
    match word(line, 0)? {
        b"set" => Some(Line::Set(small(line, 1)?, number(line, 2)?)),
        b"put" => Some(Line::Put(small(line, 1)?, small(line, 2)?, number(line, 3)?)),
        b"get" => Some(Line::Get(small(line, 1)?, small(line, 2)?)),
        b"commit" => Some(Line::Commit(small(line, 1)?)),
        b"clear" => Some(Line::Clear(small(line, 1)?)),
        b"cells" => Some(Line::Cells),
        b"cell" => Some(Line::Cell(small(line, 1)?)),
        b"rounds" => Some(Line::Rounds(u64::from(small(line, 1)?), u64::from(small(line, 2)?))),
        _ => None,
    }
}

/// The word at a place, from 0.
fn word(line: &[u8], place: usize) -> Option<&[u8]> {
    for (at, word) in (0usize..).zip(line.split(|byte| *byte == b' ')) {
        if at == place {
            return Some(word);
        }
    }
    None
}

/// The number at a place.
fn number(line: &[u8], place: usize) -> Option<i64> {
    str::from_utf8(word(line, place)?).ok()?.parse().ok()
}

/// The slot, address or count at a place.
pub fn small(line: &[u8], place: usize) -> Option<u32> {
    str::from_utf8(word(line, place)?).ok()?.parse().ok()
}
