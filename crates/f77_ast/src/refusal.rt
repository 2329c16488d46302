//! Why a program is refused.
ghost use Rattle.std.specs.Prelude.{◌≡◌};
ghost use Rattle.f77_ast.specs.Refusal.{refusal_by, is_earlier, earlier_of, sooner, FirstRefusalIsEarliest, FirstOfBothIsSooner};

use crate::rule::Rule;
use hyb_base::no_memory::NoMemory;
use std::alloc::{AllocError, AllocFailed};
use thiserror::Error;

/// A refusal of a program.
#[derive(Clone, Copy, Debug, PartialEq, Eq)]
pub struct Refusal {
    /// The line, counted from 1: a statement's initial line, or the line itself where the line is at fault; 0 for
    /// a text that is in no file.
    pub line: u32,
    /// The code of the rule that is broken.
    pub code: u8,
}

impl Refusal {
    /// The refusal of a line by a rule.
    pub fn new(line: u32, rule: Rule) -> Refusal
        ensures { result ≡ refusal_by line rule }
    {
        Refusal {
            line,
            code: rule.code(),
        }
    }

    /// Whether it is of an earlier line than another, or of the same line and a lesser code.
    pub fn is_earlier(self, other: Refusal) -> bool
        ensures { result ≡ is_earlier self other }
    {
        self.line < other.line || (self.line == other.line && self.code < other.code)
    }
}

/// The earlier of two refusals that may be there; of two alike the first.
pub fn sooner(one: Option<Refusal>, other: Option<Refusal>) -> Option<Refusal>
    ensures { result ≡ sooner one other }
{
    match (one, other) {
        (None, _) => other,
        (Some(_), None) => one,
        (Some(first), Some(second)) => Some(earlier(first, second)),
    }
}

/// The earlier of two refusals.
fn earlier(first: Refusal, second: Refusal) -> Refusal
    ensures { result ≡ earlier_of first (Some second) }
{
    if second.is_earlier(first) {
        second
    } else {
        first
    }
}

/// A law: the first of some refusals is one of them, and none of them is earlier.
pub fn law_of_first_refusals()
    ensures { FirstRefusalIsEarliest }
{}

/// A law: the first refusal of two lists, one after the other, is the sooner one of their first ones.
pub fn law_of_sooner_refusals()
    ensures { FirstOfBothIsSooner }
{}

/// Why the text of a program gives no tree or table.
#[derive(Clone, Copy, Debug, PartialEq, Eq, Error)]
pub enum FrontError {
    /// The text is refused.
    #[error("line {}: refused by rule {}", .0.line, .0.code)]
    Refused(Refusal),
    /// No memory was to be had.
    #[error("no memory")]
    NoMemory,
}

impl From<NoMemory> for FrontError {
    ghost use Rattle.f77_ast.specs.declared.refusal.FrontError.TheVariants.{NoMemory as no_memory};

    ghost from_gives = { λ _ error. error ≡ no_memory };

    fn from(_error: NoMemory) -> FrontError {
        FrontError::NoMemory
    }
}

impl From<AllocError> for FrontError {
    ghost use Rattle.f77_ast.specs.declared.refusal.FrontError.TheVariants.{NoMemory as no_memory};

    ghost from_gives = { λ _ error. error ≡ no_memory };

    fn from(_error: AllocError) -> FrontError {
        FrontError::NoMemory
    }
}

impl<T: Drop> From<AllocFailed<T>> for FrontError {
    ghost use Rattle.f77_ast.specs.declared.refusal.FrontError.TheVariants.{NoMemory as no_memory};

    ghost from_gives = { λ _ error. error ≡ no_memory };

    fn from(_failed: AllocFailed<T>) -> FrontError {
        FrontError::NoMemory
    }
}
