//! Rows of traces: a book is told them.

use crate::words::{Accesses, accesses_of, region, sign};
use dependence::modes::{Judged, Mode, Pair, Verdict};
use f77_ast::entities::Entities;
use f77_ast::program::Layout;
use f77_ast::step::Stepped;
use hyb_base::list::List;
use hyb_base::no_memory::NoMemory;
use hyb_base::nums::Nums;
use loop_trace::Book;
use std::alloc::{AllocError, Global};

/// A layout of regions, where the words name regions one after the other from address 0 on, none of them empty.
pub fn layout(alloc: Global, words: &str) -> Result<Option<Layout>, NoMemory> {
    let mut regions = List::new(alloc);
    let mut total: u32 = 0;
    for word in words.split_whitespace() {
        let Some(next) = region(word) else {
            return Ok(None);
        };
        if next.start != total || next.len == 0 {
            return Ok(None);
        }
        let Some(end) = total.checked_add(next.len) else {
            return Ok(None);
        };
        total = end;
        regions.push(next)?;
    }
    Ok(Some(Layout {
        regions,
        entities: Entities::new(alloc),
        total,
        first: Nums::new(alloc),
    }))
}

/// Tells a book accesses, from the first address to the last.
fn tell_accesses(book: &mut Book, accesses: Accesses) -> Result<(), NoMemory> {
    for address in accesses.run.first..=accesses.run.last {
        book.touch(&accesses.step(address))?;
    }
    Ok(())
}

/// Tells a book the accesses of an iteration, where `-` is a step without an address. Whether each word is one.
pub fn tell(book: &mut Book, words: &str) -> Result<bool, NoMemory> {
    for word in words.split_whitespace() {
        if word == "-" {
            book.touch(&Stepped::Inner)?;
        } else {
            match accesses_of(word) {
                Some(accesses) => tell_accesses(book, accesses)?,
                None => return Ok(false),
            }
        }
    }
    Ok(true)
}

/// Tells a book iterations that end, one a line. Whether each word is an access.
pub fn tell_all(book: &mut Book, lines: &str) -> Result<bool, NoMemory> {
    for words in lines.lines() {
        if !tell(book, words)? {
            return Ok(false);
        }
        book.end_iteration()?;
    }
    Ok(true)
}

/// A pair as text.
fn pair_text(alloc: Global, before: &str, pair: Pair) -> Result<String, AllocError> {
    format!(in alloc; "{before} {}:{}-{}", pair.address, pair.earlier, pair.later)
}

/// A judged mode as text.
fn judged_text(alloc: Global, judged: Judged) -> Result<String, AllocError> {
    let name = match judged.mode {
        Mode::Untouched => String::from_str(alloc, "untouched")?,
        Mode::ReadOnly => String::from_str(alloc, "read only")?,
        Mode::Shared => String::from_str(alloc, "shared")?,
        Mode::Private => String::from_str(alloc, "private")?,
        Mode::Reduce(op) => format!(in alloc; "reduce {}", sign(op))?,
    };
    match judged.pair {
        None => Ok(name),
        Some(pair) => pair_text(alloc, name.as_str(), pair),
    }
}

/// A verdict, line by line.
pub fn verdict_lines(alloc: Global, verdict: &Verdict) -> Result<Vec<String>, AllocError> {
    let mut lines = Vec::new(alloc);
    match verdict {
        Verdict::Flow(pair) => lines.push(pair_text(alloc, "flow", *pair)?)?,
        Verdict::Independent(modes) => {
            for judged in modes.as_slice() {
                lines.push(judged_text(alloc, *judged)?)?;
            }
        }
    }
    Ok(lines)
}
