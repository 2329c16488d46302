//! Worked lists of traces, and sets of addresses, as rows of data: each row of the files that the words name is told to a
//! book, or made of sets, and what comes is compared with what is wanted.
//!
//! A row begins with `@` and its name. In a row of traces `=` has the regions, each as its start and its length. The lines of
//! `<`, which a repeat may make, are iterations, whose accesses are words such as `r5`, `w5`, `+w5`, and `r5..9` for reads of
//! five addresses; `~` is an open one. `$ books N` makes N books of it, one after another. In a row of sets `$` has the
//! call, and each `<` a set, of words such as `5` and `5..9`. Each `>` is a line of what is wanted, or some lines of which one
//! is, with ` / ` between them.
#![tactic(auto)]

mod judge;
mod row;
mod rows;
mod sets;
mod traces;
mod words;

use anyhow::{Context, Result, ensure};
use hyb_base::no_memory::NoMemory;
use row_lines::shown::Shown;
use std::alloc::AllocError;
use std::rt::Files;
use std::{env, fs};

/// Out of memory, as the standard library says it.
fn out_of_memory(_error: NoMemory) -> AllocError {
    AllocError
}

/// Judges the rows of a file, and prints its line. How many differ.
fn judge_file(rt: &(impl Print + Files + AllocGlobal), file: &str) -> Result<u64> {
    let alloc = rt.alloc();
    let bytes = fs::read(rt, file).context(format_args!("reading {file}"))?;
    let read = rows::read_rows(alloc, &bytes)?;
    let mut differ: u64 = 0;
    for number in &read.unreadable {
        println!(rt; "{file} {number}: can't be read")?;
        differ = differ.saturating_add(1);
    }
    for row in &read.rows {
        let given = judge::given(alloc, row).map_err(out_of_memory)?;
        if !judge::is_as_wanted(row, given.as_ref()) {
            println!(rt; "{file} {}: {}: differs", row.number, Shown(&row.name))?;
            if let Some(lines) = &given {
                for line in lines {
                    println!(rt; "  came: {line}")?;
                }
            }
            differ = differ.saturating_add(1);
        }
    }
    let count = read.rows.len();
    println!(rt; "{file}: {count} rows, {differ} differ")?;
    Ok(differ)
}

fn main(rt: HostRuntime) -> Result<()> {
    let mut files: u64 = 0;
    let mut differ: u64 = 0;
    for file in env::args(&rt)?.skip(1) {
        differ = differ.saturating_add(judge_file(&rt, file.as_str())?);
        files = files.saturating_add(1);
    }
    ensure!(files > 0, "no file is named");
    ensure!(differ == 0, "{differ} differ");
    Ok(())
}
