//! The region of a row.
ghost use Rattle.std.specs.Prelude.{◌≡◌, ◌<◌, ◌≤◌, true, length, IfOk, IfSome};
ghost use Rattle.turn_rows.specs.Memory.{values_of};
ghost use Rattle.turn_rows.specs.declared.memory.Memory.{Memory};
ghost use Rattle.turn_rows.specs.Regions.{CanStep, IsOneLoop, IsOver, BeginsWith};

use crate::cell_mode::CellMode;
use crate::memory::Memory;
use crate::mode_rows::ModeRows;
use crate::reading::{add_line, add_picks, cell};
use crate::row::{Kind, Row};
use crate::script::Script;
use crate::shown::{show_answer, show_cells};
use crate::walker::{CELLS, Stuck, Walker};
use hyb_base::cells::Cells;
use hyb_base::no_memory::NoMemory;
use region_run::running::{Advanced, Running};
use std::alloc::{AllocError, Global};

/// The address of the loop's variable.
const VARIABLE: u32 = 2;

/// The region of a row, and the process with which the loop begins.
#[derive(Drop)]
struct Stage {
    running: Running<Walker, ModeRows>,
    main: Walker,
}

/// The iterations of a row. None where a line can't be read.
fn script_of(alloc: Global, source: &str) -> Result<Option<Script>, AllocError> {
    let mut script = Script {
        ops: Vec::new(alloc),
        starts: Vec::new(alloc),
    };
    for line in source.lines() {
        if !add_line(&mut script, line)? {
            return Ok(None);
        }
    }
    Ok(Some(script))
}

/// The picks of a row. None where a line can't be read.
fn picks_of(alloc: Global, text: &str) -> Result<Option<Vec<u64>>, AllocError> {
    let mut picks = Vec::new(alloc);
    for line in text.lines() {
        if !add_picks(&mut picks, line)? {
            return Ok(None);
        }
    }
    Ok(Some(picks))
}

/// The modes of the first cells, whose values at the entry are set. None where a line can't be read or there are too many.
fn modes_of(
    alloc: Global,
    text: &str,
    cells: &mut Memory,
) -> Result<Option<Vec<CellMode>>, AllocError>
    requires { length (values_of cells.old) ≡ 256 }
    ensures few { IfOk result (λ found. IfSome found (λ modes. length modes.items ≤ 256)) }
    ensures held { length (values_of cells.new) ≡ 256 }
{
    let mut modes = Vec::new(alloc);
    for line in text.lines() {
        let address = modes.len();
        match cell(line) {
            Some((mode, value)) if address < CELLS as usize => {
                cells.put(address as u32, value);
                modes.push(mode)?;
            }
            _ => return Ok(None),
        }
    }
    Ok(Some(modes))
}

/// The region before its first step.
fn begun(
    alloc: Global,
    script: &Script,
    modes: Vec<CellMode>,
    window: u32,
) -> Result<Stage, NoMemory>
    requires few { length modes.items ≤ 256 }
    requires wide { 0 < window }
    requires trips { window ≤ length script.now.starts.items }
    ensures { IfOk result (λ stage. ((memory : Memory) → length (values_of memory) ≡ 256 → CanStep stage.running memory) × BeginsWith stage.main stage.running) }
{
    let rows = ModeRows::new(alloc, modes, window)?;
    let main = Walker::new(alloc, script)?;
    let trips = script.starts.len() as u64;
    let running = Running::begin(alloc, script, &main, VARIABLE, trips, window, rows)?;
    Ok(Stage { running, main })
}

/// Advances with each pick, and shows each answer with the cells after it. Whether the region is over.
fn show_steps(
    text: &mut String,
    script: &Script,
    running: &mut Running<Walker, ModeRows>,
    cells: &mut Memory,
    picks: &[u64],
) -> Result<bool, AllocError>
    requires { CanStep running.old cells.old }
    ensures can { CanStep running.new cells.new }
    ensures one { IsOneLoop running.old running.new }
    ensures over { IfOk result (λ over. over ≡ true → IsOver script.now running.new) }
{
    for pick in picks {
        let answer = running.advance(script, cells, *pick);
        show_answer(text, answer)?;
        show_cells(text, cells)?;
        if let Advanced::Over = answer {
            return Ok(true);
        }
    }
    Ok(false)
}

/// Advances with all picks, and shows what they come to, with the cells after them. Whether the region is over.
fn show_end(
    text: &mut String,
    script: &Script,
    running: &mut Running<Walker, ModeRows>,
    cells: &mut Memory,
    picks: &[u64],
) -> Result<bool, AllocError>
    requires { CanStep running.old cells.old }
    ensures can { CanStep running.new cells.new }
    ensures one { IsOneLoop running.old running.new }
    ensures over { IfOk result (λ over. over ≡ true → IsOver script.now running.new) }
{
    let answer: Option<Advanced<Stuck>> = running.advance_all(script, cells, picks);
    match answer {
        None => text.push_str("not over")?,
        Some(answer) => show_answer(text, answer)?,
    }
    show_cells(text, cells)?;
    Ok(matches!(answer, Some(Advanced::Over)))
}

/// Shows what a row gives, where its words could be read.
fn show(
    alloc: Global,
    text: &mut String,
    row: &Row,
    script: &Script,
    modes: Vec<CellMode>,
    cells: &mut Memory,
    picks: &[u64],
) -> Result<(), AllocError>
    requires few { length modes.items ≤ 256 }
    requires held { length (values_of cells.old) ≡ 256 }
{
    if row.window == 0 || row.window as usize > script.starts.len() {
        return text.push_str("NO WINDOW\n");
    }
    let Ok(mut stage) = begun(alloc, script, modes, row.window) else {
        return text.push_str("NO MEMORY\n");
    };
    let over = match row.kind {
        Kind::Steps => show_steps(text, script, &mut stage.running, cells, picks)?,
        Kind::End => show_end(text, script, &mut stage.running, cells, picks)?,
    };
    if over {
        let Stage { running, mut main } = stage;
        running.finish(script, &mut main, cells);
        text.push_str("finished")?;
        show_cells(text, cells)?;
    }
    Ok(())
}

/// What a row gives.
pub fn given(alloc: Global, row: &Row) -> Result<String, AllocError> {
    let mut text = String::new(alloc);
    let Ok(mut cells) = Memory::new(alloc) else {
        return Err(AllocError);
    };
    let (Ok(source), Ok(entry), Ok(turns)) = (
        str::from_utf8(&row.source),
        str::from_utf8(&row.cells),
        str::from_utf8(&row.picks),
    ) else {
        text.push_str("NO TEXT\n")?;
        return Ok(text);
    };
    let Some(script) = script_of(alloc, source)? else {
        text.push_str("NO ITERATIONS\n")?;
        return Ok(text);
    };
    let Some(modes) = modes_of(alloc, entry, &mut cells)? else {
        text.push_str("NO CELLS\n")?;
        return Ok(text);
    };
    let Some(picks) = picks_of(alloc, turns)? else {
        text.push_str("NO PICKS\n")?;
        return Ok(text);
    };
    show(alloc, &mut text, row, &script, modes, &mut cells, &picks)?;
    Ok(text)
}
