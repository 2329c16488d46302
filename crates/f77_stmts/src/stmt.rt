//! The statement that a card spells.
ghost use Rattle.std.specs.Prelude.{◌≡◌, IfOk};
ghost use Rattle.f77_stmts.specs.Answer.{Answers};
ghost use Rattle.f77_ast.specs.Refusal.{refusal_by};
ghost use Rattle.f77_stmts.specs.Cause.{rule_of};
ghost use Rattle.f77_stmts.specs.Statement as spec;

use crate::cause::rule_of;
use crate::statement::statement;
use f77_ast::program::Card;
use f77_ast::refusal::{FrontError, Refusal};
use f77_ast::stmt::Stmt;
use hyb_base::no_memory::NoMemory;
use std::alloc::Global;

/// The statement that is read of a whole text. No parentheses in it nest deeper than it is long.
fn read(alloc: Global, text: &[u8]) -> Result<Option<Stmt>, NoMemory>
    ensures { IfOk result (λ v. v ≡ spec.statement_of text.now) }
{
    statement(alloc, text, text.len() + 1)
}

/// Why a text that spells no statement is refused, at its line.
fn refusal(alloc: Global, line: u32, text: &[u8]) -> Result<Refusal, NoMemory>
    ensures { IfOk result (λ refusal. refusal ≡ refusal_by line (rule_of text.now)) }
{
    let rule = rule_of(alloc, text)?;
    Ok(Refusal::new(line, rule))
}

/// The one statement that the text of a line spells, or why there is none.
fn answer(alloc: Global, line: u32, text: &[u8]) -> Result<Stmt, FrontError>
    ensures { Answers line text.now result }
{
    match read(alloc, text)? {
        Some(found) => Ok(found),
        None => Err(FrontError::Refused(refusal(alloc, line, text)?)),
    }
}

/// The one statement that a card's text spells (ANSI X3.9-1978, sections 8 to 15). No word is reserved: `DO10I=1,2` is a
/// loop, `DO10I=1` an assignment.
///
/// # Errors
///
/// `Refused` exactly where the text spells none: at the card's line, with the first code that fits. 21 is a text that
/// begins with a word of a statement that is left out, or left out in some of its forms. 12 is a real literal. 11 is a
/// number past 2^63 - 1. 13 is a name of more than six letters and digits directly before the first `=`, or anywhere after
/// it. 20 is any other text. What is inside character constants makes none of 11 to 13. `NoMemory` where memory failed.
pub fn stmt(alloc: Global, card: &Card) -> Result<Stmt, FrontError>
    ensures { Answers card.now.line card.now.text result }
{
    answer(alloc, card.line, card.text.as_slice())
}
