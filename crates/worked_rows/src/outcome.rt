//! What a command gives: what a row wants, or what came.

use row_lines::shown::Shown;
use std::alloc::{AllocError, Global};
use std::fmt;

/// What a command gives.
#[derive(Drop)]
pub struct Outcome {
    /// The exit code.
    pub code: u64,
    /// What is printed.
    pub out: Vec<u8>,
    /// The notes.
    pub notes: Vec<u8>,
    /// What `order` took, where it was kept.
    pub order: Option<Vec<u8>>,
}

impl Outcome {
    /// Whether it is what was wanted. An `order` that wasn't kept is as wanted.
    pub fn is(&self, wanted: &Outcome) -> bool {
        self.code == wanted.code
            && self.out.as_slice() == wanted.out.as_slice()
            && are_noted(&wanted.notes, &self.notes)
            && is_ordered(&wanted.order, &self.order)
    }

    /// A copy.
    pub fn copy(&self, alloc: Global) -> Result<Outcome, AllocError> {
        let order = match &self.order {
            Some(order) => Some(Vec::from_slice(alloc, order)?),
            None => None,
        };
        Ok(Outcome {
            code: self.code,
            out: Vec::from_slice(alloc, &self.out)?,
            notes: Vec::from_slice(alloc, &self.notes)?,
            order,
        })
    }
}

/// Whether `order` took what was wanted, where both are known.
fn is_ordered(wanted: &Option<Vec<u8>>, came: &Option<Vec<u8>>) -> bool {
    match (wanted, came) {
        (Some(wanted), Some(came)) => wanted.as_slice() == came.as_slice(),
        _ => true,
    }
}

/// Whether notes are the wanted ones, in which the word `?` stands for any number.
fn are_noted(wanted: &[u8], came: &[u8]) -> bool {
    let is_feed = |byte: &u8| *byte == b'\n';
    let lines = wanted.split(is_feed).count();
    lines == came.split(is_feed).count()
        && wanted
            .split(is_feed)
            .zip(came.split(is_feed))
            .all(|(wanted, came)| is_noted(wanted, came))
}

/// Whether a line of notes is the wanted one.
fn is_noted(wanted: &[u8], came: &[u8]) -> bool {
    let is_blank = |byte: &u8| *byte == b' ';
    let words = wanted.split(is_blank).count();
    words == came.split(is_blank).count()
        && wanted.split(is_blank).zip(came.split(is_blank)).all(|(wanted, came)| wanted == came
            || (wanted == b"?".as_slice() && is_number(came)))
}

/// Whether a word is a number: one or more decimal digits.
fn is_number(word: &[u8]) -> bool {
    !word.is_empty() && word.iter().all(|byte| byte.is_ascii_digit())
}

impl fmt::Display for Outcome {
    fn fmt<W: fmt::Write>(&self, f: &mut fmt::Formatter<W>) -> fmt::Result {
        let code = self.code;
        let out = Shown(&self.out);
        let notes = Shown(&self.notes);
        write!(f, "exit code {code}, out `{out}`, notes `{notes}`")?;
        match &self.order {
            Some(order) => write!(f, ", order `{}`", Shown(order)),
            None => Ok(()),
        }
    }
}
