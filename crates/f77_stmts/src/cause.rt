//! Why a text spells no statement.
ghost use Rattle.std.specs.Prelude.{◌≡◌, map, false, IfOk};
ghost use Rattle.f77_stmts.specs.Cause as spec;

use f77_ast::rule::Rule;
use f77_exprs::cause::{Cause, cause_of, is_long_name};
use f77_exprs::operators::begins;
use f77_exprs::outside::outside;
use f77_parts::items::is_control;
use hyb_base::no_memory::NoMemory;
use std::alloc::Global;

/// Whether a text begins with one of some words.
fn begins_any(words: &[&[u8]], text: &[u8]) -> bool
    ensures { result ≡ spec.begins_any (map (λ word. word.now) words.now) text.now }
{
    match words {
        [] => false,
        [word, others @ ..] => begins(word, text) || begins_any(others, text),
    }
}

/// Whether a text begins with the first word of a specification that is left out, or left out in some of its forms.
fn begins_specifications(text: &[u8]) -> bool
    ensures { result ≡ spec.begins_any spec.left_out_specifications text.now }
{
    begins_any(
        &[
            b"REAL".as_slice(),
            b"DOUBLEPRECISION".as_slice(),
            b"COMPLEX".as_slice(),
            b"EXTERNAL".as_slice(),
            b"INTRINSIC".as_slice(),
            b"BLOCKDATA".as_slice(),
            b"IMPLICIT".as_slice(),
            b"INTEGER*".as_slice(),
            b"LOGICAL*".as_slice(),
        ],
        text,
    )
}

/// Whether a text begins with the first word of such a statement of input and output.
fn begins_transfers(text: &[u8]) -> bool
    ensures { result ≡ spec.begins_any spec.left_out_transfers text.now }
{
    begins_any(
        &[
            b"FORMAT(".as_slice(),
            b"OPEN(".as_slice(),
            b"CLOSE(".as_slice(),
            b"INQUIRE(".as_slice(),
            b"BACKSPACE".as_slice(),
            b"ENDFILE".as_slice(),
            b"REWIND".as_slice(),
            b"READ".as_slice(),
            b"WRITE".as_slice(),
            b"PRINT".as_slice(),
        ],
        text,
    )
}

/// Whether a text begins with the first word of another such statement.
fn begins_others(text: &[u8]) -> bool
    ensures { result ≡ spec.begins_any spec.left_out_others text.now }
{
    begins_any(
        &[
            b"ENTRY".as_slice(),
            b"ASSIGN".as_slice(),
            b"PAUSE".as_slice(),
            b"RETURN".as_slice(),
            b"ENDDO".as_slice(),
            b"DOWHILE".as_slice(),
            b"INCLUDE".as_slice(),
        ],
        text,
    )
}

/// Whether a text begins with a word of a statement that is left out, or left out in some of its forms.
fn is_left_out(text: &[u8]) -> bool
    ensures { result ≡ spec.is_left_out text.now }
{
    begins_specifications(text) || begins_transfers(text) || begins_others(text)
}

/// Whether a name of more than six letters and digits is directly before the first `=` of a text, or anywhere after
/// it. In the text constants and dotted words are blanks.
fn has_long_name(plain: &[u8]) -> bool
    ensures { result ≡ spec.long_name_from 32 false plain.now }
{
    let mut before = b' ';
    let mut seen = false;
    let mut rest = plain;
    while let Some((byte, after)) = rest.split_first() {
        if is_long_name(before, rest) && (seen || is_control(rest)) {
            return true;
        }
        seen = seen || *byte == b'=';
        before = *byte;
        rest = after;
    }
    false
}

/// The rule that refuses a text without a cause of its own, by whether such a name is in it.
fn rule_by_name(named: bool) -> Rule
    ensures { result ≡ spec.rule_by_name named }
{
    if named {
        Rule::NameTooLong
    } else {
        Rule::NoStatement
    }
}

/// The rule that refuses a text, by its cause as an expression, and by whether such a name is in it.
fn rule_by(cause: Cause, named: bool) -> Rule
    ensures { result ≡ spec.rule_by cause named }
{
    match cause {
        Cause::RealLiteral => Rule::RealLiteral,
        Cause::LiteralRange => Rule::LiteralRange,
        Cause::NameTooLong => rule_by_name(named),
        Cause::NoExpression => rule_by_name(named),
    }
}

/// The rule that refuses a text that spells no statement: `LeftOut` for one that begins with a word of a statement that is
/// left out, else `RealLiteral`, else `LiteralRange` for a number past 2^63 - 1, else `NameTooLong` for a name of more than
/// six letters and digits directly before the first `=` or anywhere after it, else `NoStatement`.
pub fn rule_of(alloc: Global, text: &[u8]) -> Result<Rule, NoMemory>
    ensures { IfOk result (λ rule. rule ≡ spec.rule_of text.now) }
{
    if is_left_out(text) {
        return Ok(Rule::LeftOut);
    }
    let cause = cause_of(alloc, text)?;
    let plain = outside(alloc, text)?;
    Ok(rule_by(cause, has_long_name(plain.as_slice())))
}
