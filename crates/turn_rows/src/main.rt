//! Regions as rows of data: each row of the files that the words name is a loop of a small process and a list of picks, and what
//! its region gives is compared with what it is to give.
#![tactic(auto)]

mod cell_mode;
mod memory;
mod mode_rows;
mod own_row;
mod reading;
mod row;
mod script;
mod shown;
mod turns;
mod walker;

use anyhow::{Context, ensure};
use row::{Row, Unreadable};
use row_lines::shown::Shown;
use std::alloc::Global;
use std::process::ExitCode;
use std::rt::Files;
use std::{env, fs};

/// How many rows a file has, and how many differ or can't be read.
#[derive(Clone, Copy)]
struct Tally {
    rows: u64,
    differ: u64,
}

/// Judges a row, and prints it where it differs. Whether it is as wanted.
fn is_as_wanted(
    rt: &impl Print,
    alloc: Global,
    file: &str,
    row: &Result<Row, Unreadable>,
) -> anyhow::Result<bool> {
    match row {
        Ok(row) => {
            let came = turns::given(alloc, row)?;
            if came.as_bytes() == row.wanted.as_slice() {
                return Ok(true);
            }
            println!(rt; "{file} {}: {}", row.number, Shown(&row.name))?;
            println!(rt; "  wanted: {}", Shown(&row.wanted))?;
            println!(rt; "  came:   {}", Shown(came.as_bytes()))?;
            Ok(false)
        }
        Err(unreadable) => {
            println!(rt; "{file} {unreadable}")?;
            Ok(false)
        }
    }
}

/// Judges the rows of a file, and prints its line.
fn judge_file(rt: &(impl Print + Files + AllocGlobal), file: &str) -> anyhow::Result<Tally> {
    let alloc = rt.alloc();
    let bytes = fs::read(rt, file).context(format_args!("reading {file}"))?;
    let mut tally = Tally { rows: 0, differ: 0 };
    for row in &row::rows(alloc, &bytes)? {
        tally.rows = tally.rows.saturating_add(1);
        if !is_as_wanted(rt, alloc, file, row)? {
            tally.differ = tally.differ.saturating_add(1);
        }
    }
    println!(rt; "{file}: {} rows, {} differ", tally.rows, tally.differ)?;
    Ok(tally)
}

fn main(rt: HostRuntime) -> anyhow::Result<ExitCode> {
    let mut files: u64 = 0;
    let mut differ: u64 = 0;
    for file in env::args(&rt)?.skip(1) {
        let tally = judge_file(&rt, file.as_str())?;
        files = files.saturating_add(1);
        differ = differ.saturating_add(tally.differ);
    }
    ensure!(files > 0, "no file is named");
    Ok(if differ == 0 {
        ExitCode::SUCCESS
    } else {
        ExitCode::FAILURE
    })
}
