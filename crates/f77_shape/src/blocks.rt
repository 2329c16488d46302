//! Block IFs: IF with THEN, ELSE IF, ELSE and END IF (ANSI X3.9-1978, sections 11.6 to 11.9).
ghost use Rattle.std.specs.Prelude.{◌≡◌, ◌<◌, ◌-◌, ◌^◌, [], reverse, IfOk, OnOk};
ghost use Rattle.f77_ast.specs.Refusal.{first_of};
ghost use Rattle.f77_shape.specs.Blocks.{opened_by, none_open, takes_no_else, is_misplaced, ends_count, is_misplaced_part, lacks_end, is_unended};
ghost use Rattle.f77_shape.specs.Breaks.{broken_by};

use crate::breaks::refused_if;
use f77_ast::program::Listed;
use f77_ast::refusal::{Refusal, sooner};
use f77_ast::rule::Rule;
use f77_ast::stmt::Stmt;
use f77_structure::blocks::{IfPart, if_part};
use hyb_base::no_memory::NoMemory;
use std::alloc::Global;

/// Whether no IF is open, or the ELSE of the innermost one, which is the last, has stood.
fn takes_no_else(elses: &Vec<bool>) -> bool
    ensures { result ≡ takes_no_else (reverse elses.now.items) }
{
    match elses.last() {
        None => true,
        Some(has_else) => *has_else,
    }
}

/// Whether a statement lacks its IF, or is after the ELSE of its IF, where for each open IF, the innermost last, this
/// tells whether its ELSE has stood.
fn is_misplaced(elses: &Vec<bool>, stmt: &Stmt) -> bool
    ensures { result ≡ is_misplaced (reverse elses.now.items) stmt.now }
{
    match if_part(stmt) {
        None => false,
        Some(IfPart::If) => false,
        Some(IfPart::ElseIf) => takes_no_else(elses),
        Some(IfPart::Else) => takes_no_else(elses),
        Some(IfPart::EndIf) => elses.is_empty(),
    }
}

/// Goes on after a statement: IF with THEN opens an IF, END IF closes the innermost one.
fn go_on(elses: &mut Vec<bool>, stmt: &Stmt) -> Result<(), NoMemory>
    ensures { OnOk result (reverse elses.new.items ≡ opened_by stmt.now (reverse elses.old.items)) }
{
    match if_part(stmt) {
        None => Ok(()),
        Some(IfPart::If) => {
            elses.push(false)?;
            Ok(())
        }
        Some(IfPart::ElseIf) => Ok(()),
        Some(IfPart::Else) => match elses.pop() {
            None => Ok(()),
            Some(_had) => {
                elses.push(true)?;
                Ok(())
            }
        },
        Some(IfPart::EndIf) => {
            let _closed = elses.pop();
            Ok(())
        }
    }
}

/// IfNesting: the first ELSE IF, ELSE or END IF of a unit without its IF, or ELSE IF or ELSE after an ELSE of the same IF.
pub fn misplaced_part(alloc: Global, unit: &[Listed]) -> Result<Option<Refusal>, NoMemory>
    ensures { IfOk result (λ first. first ≡ first_of (broken_by Rule.IfNesting (is_misplaced_part unit.now) 0 unit.now)) }
{
    let mut first = None;
    let mut elses: Vec<bool> = Vec::new(alloc);
    for listed in unit {
        let breaks = is_misplaced(&elses, &listed.stmt);
        first = sooner(first, refused_if(breaks, listed, Rule::IfNesting));
        go_on(&mut elses, &listed.stmt)?;
    }
    Ok(first)
}

/// Whether a statement is an IF with THEN without END IF, where `ends` END IFs after it have no IF after it.
fn lacks_end(stmt: &Stmt, ends: usize) -> bool
    ensures { result ≡ lacks_end stmt.now ends }
{
    match if_part(stmt) {
        None => false,
        Some(IfPart::If) => ends == 0,
        Some(IfPart::ElseIf) => false,
        Some(IfPart::Else) => false,
        Some(IfPart::EndIf) => false,
    }
}

/// How many END IFs from this statement on have their IF before it, where `ends` is that number for the statements
/// after it.
fn ends_count(stmt: &Stmt, ends: usize) -> usize
    requires { ends < 2 ^ 64 - 1 }
    ensures { result ≡ ends_count stmt.now ends }
{
    match if_part(stmt) {
        None => ends,
        Some(IfPart::If) => ends.saturating_sub(1),
        Some(IfPart::ElseIf) => ends,
        Some(IfPart::Else) => ends,
        Some(IfPart::EndIf) => ends + 1,
    }
}

/// IfNesting: the first IF with THEN of a unit without its END IF.
pub fn unended_if(unit: &[Listed]) -> Option<Refusal>
    ensures { result ≡ first_of (broken_by Rule.IfNesting is_unended 0 unit.now) }
{
    let mut first = None;
    let mut ends: usize = 0;
    let mut place = unit.len();
    while place > 0 {
        place -= 1;
        let listed = &unit[place];
        first = sooner(
            refused_if(lacks_end(&listed.stmt, ends), listed, Rule::IfNesting),
            first,
        );
        ends = ends_count(&listed.stmt, ends);
    }
    first
}
