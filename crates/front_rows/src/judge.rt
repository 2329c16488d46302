//! Judges the cases of a file, and prints what differs.

use crate::case::{Case, Unreadable};
use crate::reading::cases;
use crate::table::Table;
use anyhow::{Context, Result};
use hyb_base::bytes::Bytes;
use hyb_base::no_memory::NoMemory;
use row_lines::shown::Shown;
use std::alloc::{AllocError, Global};

/// Out of memory, as the standard library says it.
fn out_of_memory(_error: NoMemory) -> AllocError {
    AllocError
}

/// A file of cases, and what is shown of them.
#[derive(Clone, Copy)]
struct Judge<'a> {
    alloc: Global,
    name: &'a str,
    table: Table,
}

/// Prints lines, with blanks at their front.
fn print_lines(rt: &impl Print, title: &str, lines: &[u8]) -> Result<()> {
    println!(rt; "  {title}")?;
    let lines = lines.strip_suffix(b"\n").unwrap_or(lines);
    for line in lines.split(|byte| *byte == b'\n') {
        println!(rt; "    {}", Shown(line))?;
    }
    Ok(())
}

impl Judge<'_> {
    /// What a case gives in place of what is wanted.
    fn difference(self, case: &Case) -> Result<Option<Bytes>> {
        let given = self.table.shown(self.alloc, case).map_err(out_of_memory)?;
        if given.as_slice() == case.wanted.as_slice() {
            return Ok(None);
        }
        Ok(Some(given))
    }

    /// Prints what can't be read.
    fn print_unreadable(self, rt: &impl Print, unreadable: Unreadable) -> Result<()> {
        println!(rt; "{}: {unreadable}", self.name)?;
        Ok(())
    }

    /// Judges a case, and prints it where it differs. Whether it is as wanted.
    fn is_as_wanted(self, rt: &impl Print, case: &Case) -> Result<bool> {
        if self.table.has_text(case) && case.source_lines > 1 {
            self.print_unreadable(rt, Unreadable::ManyTexts(case.line))?;
            return Ok(false);
        }
        match self.difference(case)? {
            None => Ok(true),
            Some(given) => {
                println!(rt;
                    "{}: line {}: differs, in: {}",
                    self.name,
                    case.line,
                    Shown(&case.group)
                )?;
                print_lines(rt, "wanted:", &case.wanted)?;
                print_lines(rt, "given:", given.as_slice())?;
                Ok(false)
            }
        }
    }

    /// Judges a case that was read or not. Whether it is as wanted.
    fn judge(self, rt: &impl Print, case: &Result<Case, Unreadable>) -> Result<bool> {
        match case {
            Ok(case) => self.is_as_wanted(rt, case),
            Err(unreadable) => {
                self.print_unreadable(rt, *unreadable)?;
                Ok(false)
            }
        }
    }
}

/// Judges the cases of a file, and prints what differs or can't be read, and then how many cases there are. The number of
/// those that differ and of the lines that can't be read.
pub fn judge_file(rt: &(impl Print + AllocGlobal), name: &str, bytes: &[u8]) -> Result<u64> {
    let alloc = rt.alloc();
    let judge = Judge {
        alloc,
        name,
        table: Table::of(name).context(format_args!("{name}: no table has this name"))?,
    };
    let cases = cases(alloc, bytes)?;
    let read = cases.iter().filter(|case| case.is_ok()).count();
    let mut differ: u64 = 0;
    for case in &cases {
        if !judge.judge(rt, case)? {
            differ = differ.saturating_add(1);
        }
    }
    println!(rt; "{name}: {read} cases, {differ} differ")?;
    Ok(differ)
}
