//! Why a text spells no expression.
ghost use Rattle.std.specs.Prelude.{◌≡◌, ◌≤◌, length, IfOk};
ghost use Rattle.f77_exprs.specs.Cause as spec;

use crate::outside::outside;
use crate::reader::{alphanumerics, digits, is_alphanumeric, number_of};
use f77_ast::rule::Rule;
use hyb_base::no_memory::NoMemory;
use std::alloc::Global;

/// Why a text spells no expression. What is in character constants and dotted words doesn't count.
#[derive(Clone, Copy, Debug, PartialEq, Eq)]
pub enum Cause {
    /// None of the others.
    NoExpression,
    /// A number run is worth more than 2^63 - 1. A number run is a greatest run of digits that no letter or digit
    /// precedes.
    LiteralRange,
    /// A point is beside a digit, or a number run is followed by `E` or `D`, an optional sign and a digit.
    RealLiteral,
    /// A greatest run of letters and digits begins with a letter and has more than six of them.
    NameTooLong,
}

impl Cause {
    /// The rule by which it refuses.
    pub fn rule(self) -> Rule
        ensures { result ≡ spec.rule_of self }
    {
        match self {
            Cause::NoExpression => Rule::NoExpression,
            Cause::LiteralRange => Rule::LiteralRange,
            Cause::RealLiteral => Rule::RealLiteral,
            Cause::NameTooLong => Rule::NameTooLong,
        }
    }
}

/// Whether a digit comes next.
fn sees_digit(text: &[u8]) -> bool
    ensures { result ≡ spec.sees_digit text.now }
{
    matches!(text, [b'0'..=b'9', ..])
}

/// Whether a letter comes next.
fn sees_letter(text: &[u8]) -> bool
    ensures { result ≡ spec.sees_letter text.now }
{
    matches!(text, [b'A'..=b'Z', ..])
}

/// Whether a point comes next that has a digit beside it.
fn is_point_at_digit(before: u8, text: &[u8]) -> bool
    ensures { result ≡ spec.is_point_at_digit before text.now }
{
    match text {
        [b'.', after @ ..] => before.is_ascii_digit() || sees_digit(after),
        _ => false,
    }
}

/// The number run that begins a text, after a byte.
fn number_run(before: u8, text: &[u8]) -> &[u8]
    ensures value { result.now ≡ spec.number_run before text.now }
    ensures within { length result.now ≤ length text.now }
{
    let count = if is_alphanumeric(before) {
        0
    } else {
        digits(text)
    };
    text.split_at(count).0
}

/// The text after a sign, where one comes next.
fn after_sign(text: &[u8]) -> &[u8]
    ensures { result.now ≡ spec.after_sign text.now }
{
    match text {
        [b'+' | b'-', after @ ..] => after,
        _ => text,
    }
}

/// Whether an exponent comes next: `E` or `D`, an optional sign and a digit (ANSI X3.9-1978, sections 4.4.2 and 4.5.1).
fn is_exponent(text: &[u8]) -> bool
    ensures { result ≡ spec.is_exponent text.now }
{
    match text {
        [b'E' | b'D', after @ ..] => sees_digit(after_sign(after)),
        _ => false,
    }
}

/// Whether a number run with an exponent after it comes next, after a byte.
fn is_run_with_exponent(before: u8, text: &[u8]) -> bool
    ensures { result ≡ spec.is_run_with_exponent before text.now }
{
    let count = number_run(before, text).len();
    count > 0 && is_exponent(text.split_at(count).1)
}

/// Whether a number run of a value above 2^63 - 1 comes next, after a byte.
fn is_out_of_range(before: u8, text: &[u8]) -> bool
    ensures { result ≡ spec.makes Cause.LiteralRange before text.now }
{
    let run = number_run(before, text);
    !run.is_empty() && number_of(run).is_none()
}

/// Whether a name of more than six letters and digits comes next, after a byte.
pub fn is_long_name(before: u8, text: &[u8]) -> bool
    ensures { result ≡ spec.is_long_name before text.now }
{
    !is_alphanumeric(before) && sees_letter(text) && alphanumerics(text) > 6
}

/// Whether a cause is made at a place, by the byte before it and by the text from there on. `NoExpression`
/// is made nowhere: it is left where no other is made.
fn makes(cause: Cause, before: u8, text: &[u8]) -> bool
    ensures { result ≡ spec.makes cause before text.now }
{
    match cause {
        Cause::RealLiteral => {
            is_point_at_digit(before, text) || is_run_with_exponent(before, text)
        }
        Cause::LiteralRange => is_out_of_range(before, text),
        Cause::NameTooLong => is_long_name(before, text),
        Cause::NoExpression => false,
    }
}

/// Whether a cause is made at some place of a text, before which there is nothing.
fn somewhere(cause: Cause, text: &[u8]) -> bool
    ensures { result ≡ spec.somewhere (spec.makes cause) 32 text.now }
{
    let mut before = b' ';
    let mut rest = text;
    while let Some((byte, after)) = rest.split_first() {
        if makes(cause, before, rest) {
            return true;
        }
        before = *byte;
        rest = after;
    }
    false
}

/// The first cause that is in a text, in which constants and dotted words are blanks.
fn first_cause(plain: &[u8]) -> Cause
    ensures { result ≡ spec.first_cause plain.now }
{
    if somewhere(Cause::RealLiteral, plain) {
        Cause::RealLiteral
    } else if somewhere(Cause::LiteralRange, plain) {
        Cause::LiteralRange
    } else if somewhere(Cause::NameTooLong, plain) {
        Cause::NameTooLong
    } else {
        Cause::NoExpression
    }
}

/// The cause of a text that spells no expression: the first that is in what it has outside constants and dotted
/// words.
pub fn cause_of(alloc: Global, text: &[u8]) -> Result<Cause, NoMemory>
    ensures { IfOk result (λ cause. cause ≡ spec.cause_of text.now) }
{
    let plain = outside(alloc, text)?;
    Ok(first_cause(plain.as_slice()))
}
