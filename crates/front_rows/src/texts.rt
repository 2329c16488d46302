//! What one text makes, which is written as a card holds it: without blanks and in upper case outside character constants.

use f77_ast::program::Card;
use f77_ast::refusal::FrontError;
use f77_ast::stmt::Stmt;
use f77_exprs::expr::expr;
use f77_operands::needs::operand_need;
use f77_shown::exprs::show_expr;
use f77_shown::lists::show_field;
use f77_shown::refusals::show_code;
use f77_shown::statements::show_stmt;
use f77_stmts::stmt::stmt;
use hyb_base::bytes::Bytes;
use hyb_base::no_memory::NoMemory;
use std::alloc::Global;

/// The statement of a text.
fn stmt_of(alloc: Global, text: &[u8]) -> Result<Stmt, FrontError> {
    let card = Card {
        label: None,
        line: 1,
        text: Bytes::from_slice(alloc, text)?,
    };
    stmt(alloc, &card)
}

/// Shows why a text makes nothing.
fn show_error(error: FrontError, into: &mut Bytes) -> Result<(), NoMemory> {
    match error {
        FrontError::Refused(refusal) => show_code(&refusal, into),
        FrontError::NoMemory => Err(NoMemory),
    }
}

/// Shows the expression that a text spells.
pub fn show_expr_of(alloc: Global, text: &[u8], into: &mut Bytes) -> Result<(), NoMemory> {
    match expr(alloc, text) {
        Ok(spelled) => show_expr(&spelled, into),
        Err(error) => show_error(error, into),
    }
}

/// Shows the statement that a text spells.
pub fn show_stmt_of(alloc: Global, text: &[u8], into: &mut Bytes) -> Result<(), NoMemory> {
    match stmt_of(alloc, text) {
        Ok(spelled) => show_stmt(&spelled, into),
        Err(error) => show_error(error, into),
    }
}

/// Shows how many operands a statement needs. A function of its own, since `?` beside an owned statement outgrows the prover.
fn show_need(alloc: Global, stmt: &Stmt, into: &mut Bytes) -> Result<(), NoMemory> {
    into.push_slice(b"need".as_slice())?;
    show_field(operand_need(alloc, stmt)?, into)
}

/// Shows how many operands the statement that a text spells needs.
pub fn show_need_of(alloc: Global, text: &[u8], into: &mut Bytes) -> Result<(), NoMemory> {
    match stmt_of(alloc, text) {
        Ok(spelled) => show_need(alloc, &spelled, into),
        Err(error) => show_error(error, into),
    }
}
