//! The comma between the members of a list, and numbers.

use hyb_base::bytes::Bytes;
use hyb_base::decimal::print_i64;
use hyb_base::no_memory::NoMemory;

/// Adds a comma before every member of a list but the first, which is at place 0.
pub fn show_comma(place: usize, into: &mut Bytes) -> Result<(), NoMemory> {
    if place > 0 {
        into.push(b',')?;
    }
    Ok(())
}

/// Shows a number: `10`.
pub fn show_number(number: u32, into: &mut Bytes) -> Result<(), NoMemory> {
    print_i64(i64::from(number), into)
}

/// Shows a blank and a number: ` 10`.
pub fn show_field(number: u32, into: &mut Bytes) -> Result<(), NoMemory> {
    into.push(b' ')?;
    show_number(number, into)
}

/// Shows a blank and a count: ` 10`.
pub fn show_count(count: usize, into: &mut Bytes) -> Result<(), NoMemory> {
    into.push(b' ')?;
    print_i64(i64::try_from(count).unwrap_or(i64::MAX), into)
}
