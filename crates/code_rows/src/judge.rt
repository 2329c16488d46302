//! Judges the cases of a file, and prints what differs.

use crate::case::{Case, Unreadable};
use crate::compiled::show_source;
use crate::reading::cases;
use anyhow::Result;
use hyb_base::bytes::Bytes;
use hyb_base::no_memory::NoMemory;
use row_lines::shown::Shown;
use std::alloc::{AllocError, Global};

/// Out of memory, as the standard library says it.
fn out_of_memory(_error: NoMemory) -> AllocError {
    AllocError
}

/// What the source of a case gives.
fn given(alloc: Global, case: &Case) -> Result<Bytes> {
    let mut into = Bytes::new(alloc);
    show_source(alloc, &case.source, &mut into).map_err(out_of_memory)?;
    Ok(into)
}

/// Prints lines, with blanks at their front.
fn print_lines(rt: &impl Print, title: &str, lines: &[u8]) -> Result<()> {
    println!(rt; "  {title}")?;
    let lines = lines.strip_suffix(b"\n").unwrap_or(lines);
    for line in lines.split(|byte| *byte == b'\n') {
        println!(rt; "    {}", Shown(line))?;
    }
    Ok(())
}

/// Judges a case, and prints it where it differs. Whether it is as wanted.
fn is_as_wanted(rt: &(impl Print + AllocGlobal), name: &str, case: &Case) -> Result<bool> {
    let given = given(rt.alloc(), case)?;
    if given.as_slice() == case.wanted.as_slice() {
        return Ok(true);
    }
    println!(rt;
        "{name}: line {}: differs, in: {}",
        case.line,
        Shown(&case.group)
    )?;
    print_lines(rt, "wanted:", &case.wanted)?;
    print_lines(rt, "given:", given.as_slice())?;
    Ok(false)
}

/// Judges a case that was read or not. Whether it is as wanted.
fn judge(
    rt: &(impl Print + AllocGlobal),
    name: &str,
    case: &Result<Case, Unreadable>,
) -> Result<bool> {
    match case {
        Ok(case) => is_as_wanted(rt, name, case),
        Err(unreadable) => {
            println!(rt; "{name}: {unreadable}")?;
            Ok(false)
        }
    }
}

/// Judges the cases of a file, and prints what differs or can't be read, and then how many cases there are. The number of
/// those that differ and of the lines that can't be read.
pub fn judge_file(rt: &(impl Print + AllocGlobal), name: &str, bytes: &[u8]) -> Result<u64> {
    let cases = cases(rt.alloc(), bytes)?;
    let read = cases.iter().filter(|case| case.is_ok()).count();
    let mut differ: u64 = 0;
    for case in &cases {
        if !judge(rt, name, case)? {
            differ = differ.saturating_add(1);
        }
    }
    println!(rt; "{name}: {read} cases, {differ} differ")?;
    Ok(differ)
}
