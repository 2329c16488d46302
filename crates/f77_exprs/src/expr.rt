//! The expression that a text spells.
ghost use Rattle.std.specs.Prelude.{◌≡◌, IfOk};
ghost use Rattle.f77_exprs.specs.Answer.{Answers};
ghost use Rattle.f77_exprs.specs.Cause.{refusal_of};
ghost use Rattle.f77_exprs.specs.Reading as spec;

use crate::cause::cause_of;
use crate::grammar::expr_within;
use crate::reader::Reader;
use crate::unread::Unread;
use f77_ast::expr::Expr;
use f77_ast::refusal::{FrontError, Refusal};
use hyb_base::no_memory::NoMemory;
use std::alloc::Global;

/// The expression that is read of a whole text. No parentheses in it nest deeper than it is long.
#[tactic(auto, unfolding(crate::specs::Reading::expr_of))]
fn read(alloc: Global, text: &[u8]) -> Result<Option<Expr>, NoMemory>
    ensures { IfOk result (λ tree. tree ≡ spec.expr_of text.now) }
{
    let mut reader = Reader::new(text);
    match expr_within(alloc, &mut reader, text.len() + 1) {
        Ok(tree) if reader.is_empty() => Ok(Some(tree)),
        Ok(_tree) => Ok(None),
        Err(Unread::Unspelled) => Ok(None),
        Err(Unread::NoMemory) => Err(NoMemory),
    }
}

/// Why a text that spells no expression is refused: at line 0, since it is in no file.
fn refusal(alloc: Global, text: &[u8]) -> Result<Refusal, NoMemory>
    ensures { IfOk result (λ refusal. refusal ≡ refusal_of text.now) }
{
    let cause = cause_of(alloc, text)?;
    Ok(Refusal::new(0, cause.rule()))
}

/// expr: the one expression that a text spells, in which no blanks and no lower-case letters are outside character
/// constants (ANSI X3.9-1978, section 6).
///
/// # Errors
///
/// `Refused` exactly where the text spells none: at line 0, with the first code that fits. 12 is a real literal: a point
/// that belongs to no dotted word and has a digit beside it, or a number with an exponent. 11 is a number past 2^63 - 1.
/// 13 is a name of more than six letters and digits. 10 is any other text. What is inside character constants makes
/// none of these. `NoMemory` where memory failed.
pub fn expr(alloc: Global, text: &[u8]) -> Result<Expr, FrontError>
    ensures { Answers text.now result }
{
    match read(alloc, text)? {
        Some(tree) => Ok(tree),
        None => Err(FrontError::Refused(refusal(alloc, text)?)),
    }
}
