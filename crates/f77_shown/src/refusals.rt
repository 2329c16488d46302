//! Refusals.

use crate::lists::show_field;
use f77_ast::refusal::Refusal;
use hyb_base::bytes::Bytes;
use hyb_base::no_memory::NoMemory;

/// Shows a refusal of a file, its line and its code: `refused 3 20`.
pub fn show_refusal(refusal: &Refusal, into: &mut Bytes) -> Result<(), NoMemory> {
    into.push_slice(b"refused".as_slice())?;
    show_field(refusal.line, into)?;
    show_field(u32::from(refusal.code), into)
}

/// Shows the refusal of a text that is on no line of a file, its code alone: `refused 20`.
pub fn show_code(refusal: &Refusal, into: &mut Bytes) -> Result<(), NoMemory> {
    into.push_slice(b"refused".as_slice())?;
    show_field(u32::from(refusal.code), into)
}
