//! Worked programs as rows of data: each row of the files that the words name is run over files and sinks in memory, and
//! what it gives is compared with what it is to give.
#![tactic(auto)]

mod draft;
mod judge;
mod outcome;
mod row;
mod rows;
mod run;
mod unreadable;

use anyhow::{Context, ensure};
use hyb_base::no_memory::NoMemory;
use judge::{Difference, first_difference};
use row::Row;
use row_lines::shown::Shown;
use std::alloc::{AllocError, Global};
use std::process::ExitCode;
use std::rt::Files;
use std::{env, fs};
use unreadable::Unreadable;

/// How many rows a file has, and how many differ or can't be read.
#[derive(Clone, Copy)]
struct Tally {
    rows: u64,
    differ: u64,
}

/// Prints a row that differs.
fn print_difference(
    rt: &impl Print,
    file: &str,
    row: &Row,
    difference: &Difference,
) -> anyhow::Result<()> {
    let name = Shown(&row.name);
    let number = row.number;
    let run = difference.run;
    println!(rt; "{file} {number}: {name}: {run}")?;
    println!(rt; "  wanted: {}", difference.wanted)?;
    println!(rt; "  came:   {}", difference.came)?;
    Ok(())
}

/// Judges a row, and prints it where it differs. Whether it is as wanted.
fn is_as_wanted(
    rt: &impl Print,
    alloc: Global,
    file: &str,
    row: &Result<Row, Unreadable>,
) -> anyhow::Result<bool> {
    match row {
        Ok(row) => match first_difference(alloc, row).map_err(out_of_memory)? {
            Some(difference) => {
                print_difference(rt, file, row, &difference)?;
                Ok(false)
            }
            None => Ok(true),
        },
        Err(unreadable) => {
            println!(rt; "{file} {unreadable}")?;
            Ok(false)
        }
    }
}

/// Out of memory, as the standard library says it.
fn out_of_memory(_error: NoMemory) -> AllocError {
    AllocError
}

/// Judges the rows of a file, and prints its line.
fn judge_file(rt: &(impl Print + Files + AllocGlobal), file: &str) -> anyhow::Result<Tally> {
    let alloc = rt.alloc();
    let bytes = fs::read(rt, file).context(format_args!("reading {file}"))?;
    let mut tally = Tally { rows: 0, differ: 0 };
    for row in &rows::rows(alloc, &bytes)? {
        if is_row(row) {
            tally.rows = tally.rows.saturating_add(1);
        }
        if !is_as_wanted(rt, alloc, file, row)? {
            tally.differ = tally.differ.saturating_add(1);
        }
    }
    println!(rt; "{file}: {} rows, {} differ", tally.rows, tally.differ)?;
    Ok(tally)
}

/// Whether it is a row, read or not.
fn is_row(row: &Result<Row, Unreadable>) -> bool {
    match row {
        Ok(_) => true,
        Err(unreadable) => unreadable.is_row(),
    }
}

fn main(rt: HostRuntime) -> anyhow::Result<ExitCode> {
    let mut files: u64 = 0;
    let mut differ: u64 = 0;
    for file in env::args(&rt)?.skip(1) {
        let tally = judge_file(&rt, file.as_str())?;
        files = files.saturating_add(1);
        differ = differ.saturating_add(tally.differ);
    }
    ensure!(files > 0, "no file is named");
    Ok(if differ == 0 {
        ExitCode::SUCCESS
    } else {
        ExitCode::FAILURE
    })
}
