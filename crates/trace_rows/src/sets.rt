//! Rows of sets.

use crate::words::{Run, run_of};
use addr_sets::AddrSet;
use hyb_base::no_memory::NoMemory;
use std::alloc::{AllocError, Global};

/// Inserts addresses, from the first to the last.
fn insert_run(set: &mut AddrSet, run: Run) -> Result<(), NoMemory> {
    for address in run.first..=run.last {
        set.insert(address)?;
    }
    Ok(())
}

/// The set of the addresses that words name, each of them inserted in its turn.
pub fn set(alloc: Global, words: &str) -> Result<Option<AddrSet>, NoMemory> {
    let mut set = AddrSet::new(alloc);
    for word in words.split_whitespace() {
        match run_of(word) {
            Some(run) => insert_run(&mut set, run)?,
            None => return Ok(None),
        }
    }
    Ok(Some(set))
}

/// The least member that is greater than an address.
fn next_after(set: &AddrSet, address: u32) -> Option<u32> {
    set.least_from(address.checked_add(1)?)
}

/// The members of a set, from the least on.
pub fn members(alloc: Global, set: &AddrSet) -> Result<String, AllocError> {
    let mut text = String::new(alloc);
    let mut next = set.least();
    for _ in 0..=u32::MAX {
        let Some(member) = next else {
            break;
        };
        if !text.is_empty() {
            text.push_str(" ")?;
        }
        text.push_str(format!(in alloc; "{member}")?.as_str())?;
        next = next_after(set, member);
    }
    Ok(text)
}

/// The number of members of a set, counted from the least on.
pub fn size(set: &AddrSet) -> u64 {
    let mut count: u64 = 0;
    let mut next = set.least();
    for _ in 0..=u32::MAX {
        let Some(member) = next else {
            break;
        };
        count = count.saturating_add(1);
        next = next_after(set, member);
    }
    count
}

/// An address, or none, as text.
pub fn address_text(alloc: Global, address: Option<u32>) -> Result<String, AllocError> {
    match address {
        Some(address) => format!(in alloc; "{address}"),
        None => String::from_str(alloc, "none"),
    }
}
