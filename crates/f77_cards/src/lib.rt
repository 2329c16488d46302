//! How a FORTRAN 77 source file is cut into cards (ANSI X3.9-1978, section 3.2).
//!
//! A card is a statement's label, its initial line, and its text: columns 7 to 72 of its lines joined, without the
//! blanks outside character constants. The lines of a file are read once, from the first to the last, and what they
//! make is proved to be what a definition over the whole list of lines says.
#![tactic(auto)]

pub mod cards;
mod draft;
pub mod laws;
mod line;
mod lines;
mod reader;
mod rules;
mod text;
