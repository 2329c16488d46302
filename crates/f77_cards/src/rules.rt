//! The rules on lines that are no comments, codes 1 to 4 and 6.
ghost use Rattle.std.specs.Prelude.{◌≡◌, false};
ghost use Rattle.f77_cards.specs.Rules.{has_tab, may_stand_outside, may_stand_inside, may_stand, has_bad_character, is_digit_or_blank, is_zero_or_blank, is_bad_label, has_bad_label};
ghost use Rattle.std.specs.List.{list_all};
ghost use Rattle.f77_cards.specs.Cards.{at};
ghost use Rattle.f77_cards.specs.Reading.{first_rule, leading_rule, refused_at, continuation_rule};

use crate::line::{Line, has_digit, is_all_blank};
use crate::text::switched;
use f77_ast::limits::MOST_CONTINUATION_LINES;
use f77_ast::refusal::{FrontError, Refusal};
use f77_ast::rule::Rule;

/// Whether a line has a tab in columns 1 to 72.
fn has_tab(line: &Line) -> bool
    ensures { result ≡ has_tab line.now }
{
    line.columns.contains(&b'\t')
}

/// Whether a byte may be outside character constants (ANSI X3.9-1978, section 3.1).
fn may_stand_outside(byte: u8) -> bool
    ensures { result ≡ may_stand_outside byte }
{
    byte.is_ascii_alphabetic()
        || byte.is_ascii_digit()
        || byte == b' '
        || b"=+-*/(),.$':".contains(&byte)
}

/// Whether a byte may be inside character constants.
fn may_stand_inside(byte: u8) -> bool
    ensures { result ≡ may_stand_inside byte }
{
    byte >= 32 && byte != 127
}

/// Whether a byte may be at a place.
fn may_stand(inside: bool, byte: u8) -> bool
    ensures { result ≡ may_stand inside byte }
{
    if inside {
        may_stand_inside(byte)
    } else {
        may_stand_outside(byte)
    }
}

/// Whether a byte may not be at its place, the first byte being inside a character constant or outside.
fn has_bad_character(starts_inside: bool, bytes: &[u8]) -> bool
    ensures { result ≡ has_bad_character starts_inside bytes.now }
{
    let mut inside = starts_inside;
    for byte in bytes {
        if !may_stand(inside, *byte) {
            return true;
        }
        inside = switched(inside, *byte);
    }
    false
}

/// Whether all bytes are digits or blanks.
fn is_all_digits_or_blanks(bytes: &[u8]) -> bool
    ensures { result ≡ list_all is_digit_or_blank bytes.now }
{
    bytes
        .iter()
        .all(|byte| byte.is_ascii_digit() || *byte == b' ')
}

/// Whether all bytes are zeros or blanks.
fn is_all_zeros_or_blanks(bytes: &[u8]) -> bool
    ensures { result ≡ list_all is_zero_or_blank bytes.now }
{
    bytes.iter().all(|byte| *byte == b'0' || *byte == b' ')
}

/// Whether columns 1 to 5 of an initial line hold something but digits and blanks, or digits that are zeros alone.
fn is_bad_label(field: &[u8]) -> bool
    ensures { result ≡ is_bad_label field.now }
{
    !is_all_digits_or_blanks(field) || (has_digit(field) && is_all_zeros_or_blanks(field))
}

/// Whether an initial line has a bad label, or a continuation line anything but blanks in columns 1 to 5.
fn has_bad_label(line: &Line) -> bool
    ensures { result ≡ has_bad_label line.now }
{
    let field = line.label_field();
    if line.is_initial() {
        is_bad_label(field)
    } else {
        !is_all_blank(field)
    }
}

/// The first rule that a line breaks by its own columns (codes 1 to 3): its column 7 is inside a character constant or
/// outside.
pub fn first_rule(inside: bool, line: &Line) -> Option<Rule>
    ensures { result ≡ first_rule inside line.now }
{
    if has_tab(line) {
        Some(Rule::Tab)
    } else if has_bad_character(inside, line.text_field()) {
        Some(Rule::BadCharacter)
    } else if has_bad_label(line) {
        Some(Rule::BadLabel)
    } else {
        None
    }
}

/// The first rule that a continuation line before any initial line breaks (codes 1 to 3 and 6).
pub fn leading_rule(line: &Line) -> Rule
    ensures { result ≡ leading_rule (first_rule false line.now) }
{
    first_rule(false, line).unwrap_or(Rule::LeadingContinuation)
}

/// A refusal of a line by a rule.
pub fn refused(line: &Line, rule: Rule) -> FrontError
    ensures { result ≡ FrontError.Refused (at line.now rule) }
{
    FrontError::Refused(Refusal::new(line.number, rule))
}

/// The first refusal of the k-th continuation line of a statement, by the codes 1 to 4.
pub fn continuation_break(k: u32, inside: bool, line: &Line) -> Option<Refusal>
    ensures { result ≡ refused_at line.now (continuation_rule k inside line.now) }
{
    match continuation_rule(k, inside, line) {
        None => None,
        Some(rule) => Some(Refusal::new(line.number, rule)),
    }
}

/// The first rule that the k-th continuation line of a statement breaks (codes 1 to 4).
fn continuation_rule(k: u32, inside: bool, line: &Line) -> Option<Rule>
    ensures { result ≡ continuation_rule k inside line.now }
{
    match first_rule(inside, line) {
        Some(rule) => Some(rule),
        None if k == MOST_CONTINUATION_LINES + 1 => Some(Rule::TooManyContinuations),
        None => None,
    }
}
