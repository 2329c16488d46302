//! Statements, as they are read from their texts: as an assignment, or by the first word.
ghost use Rattle.std.specs.Prelude.{◌≡◌, true, false, drop, IfOk, option_map, IsOkUnless};
ghost use Rattle.f77_ast.specs.declared.stmt.Stmt.TheVariants as stmt;
ghost use Rattle.f77_exprs.specs.Read.{Reads};
ghost use Rattle.f77_exprs.specs.Reading.{Outcome, all_of};
ghost use Rattle.f77_forms.specs.Form.{read};
ghost use Rattle.f77_stmts.specs.Rows as rows;
ghost use Rattle.f77_stmts.specs.Statement as spec;

use crate::keyword::{Keyword, keyword_at};
use crate::rows::behind;
use f77_ast::expr::Expr;
use f77_ast::stmt::{Label, Stmt};
use f77_exprs::grammar::expr_within;
use f77_exprs::operators::begins;
use f77_exprs::reader::Reader;
use f77_exprs::unread::Unread;
use f77_forms::leaves::{a_label, a_ref, expect_word};
use f77_parts::sees::sees_digit;
use hyb_base::no_memory::NoMemory;
use sqlite_items::Boxed;
use std::alloc::Global;

/// What was read, if no text is left after it.
fn all_of<T: Drop>(found: Result<T, Unread>, reader: &Reader<'_>) -> Result<Option<T>, NoMemory>
    ensures { (o : Outcome T) → Reads o found reader.now → IfOk result (λ v. v ≡ all_of o) }
{
    match found {
        Ok(tree) if reader.is_empty() => Ok(Some(tree)),
        Ok(_tree) => Ok(None),
        Err(Unread::Unspelled) => Ok(None),
        Err(Unread::NoMemory) => Err(NoMemory),
    }
}

/// Assign: ref `=` expr (ANSI X3.9-1978, section 10)
fn assignment(alloc: Global, reader: &mut Reader<'_>, depth: usize) -> Result<Stmt, Unread>
    ensures { Reads (read depth rows.assignment reader.old) result reader.new }
{
    let target = a_ref(alloc, reader, depth)?;
    expect_word(reader, b"=".as_slice())?;
    let value = expr_within(alloc, reader, depth)?;
    Ok(Stmt::Assign { target, value })
}

/// The assignment that is read of a text.
fn assigned(alloc: Global, text: &[u8], depth: usize) -> Result<Option<Stmt>, NoMemory>
    ensures { IfOk result (λ v. v ≡ all_of (read depth rows.assignment text.now)) }
{
    let mut reader = Reader::new(text);
    let found = assignment(alloc, &mut reader, depth);
    all_of(found, &reader)
}

/// What is read of a text with a first word.
fn row(alloc: Global, text: &[u8], depth: usize, keyword: Keyword) -> Result<Option<Stmt>, NoMemory>
    ensures { IfOk result (λ v. v ≡ all_of (read depth (rows.rule keyword) (spec.behind_word keyword text.now))) }
{
    let (_, rest) = text.split_at(keyword.spelling().len().min(text.len()));
    let mut reader = Reader::new(rest);
    let found = behind(alloc, &mut reader, depth, keyword);
    all_of(found, &reader)
}

/// The statement of a text by its first word, where all words are sought, or those that a logical IF may hold.
#[tactic(auto, unfolding(crate::specs::Statement::by_word))]
fn by_word(alloc: Global, text: &[u8], depth: usize, all: bool) -> Result<Option<Stmt>, NoMemory>
    ensures { IfOk result (λ v. v ≡ spec.by_word all depth text.now) }
{
    match keyword_at(text) {
        Some(keyword) if all || keyword.is_action() => row(alloc, text, depth, keyword),
        _ => Ok(None),
    }
}

/// label `,` label `,` label (ANSI X3.9-1978, section 11.4)
fn three_labels(reader: &mut Reader<'_>) -> Result<(Label, (Label, Label)), Unread>
    ensures value { Reads (read 0 rows.three_labels reader.old) result reader.new }
    ensures err { IsOkUnless result Unread.Unspelled }
{
    let negative = a_label(reader)?;
    expect_word(reader, b",".as_slice())?;
    let zero = a_label(reader)?;
    expect_word(reader, b",".as_slice())?;
    let positive = a_label(reader)?;
    Ok((negative, (zero, positive)))
}

/// The arithmetic IF of a condition and what follows it.
fn arithmetic(value: Expr, text: &[u8]) -> Result<Option<Stmt>, NoMemory>
    ensures { IfOk result (λ v. v ≡ spec.arithmetic 0 value text.now) }
{
    let mut reader = Reader::new(text);
    let found = three_labels(&mut reader);
    match all_of(found, &reader)? {
        Some((negative, (zero, positive))) => Ok(Some(Stmt::ArithmeticIf {
            value,
            negative,
            zero,
            positive,
        })),
        None => Ok(None),
    }
}

/// expr `)`
fn condition(alloc: Global, reader: &mut Reader<'_>, depth: usize) -> Result<Expr, Unread>
    ensures { Reads (read depth spec.condition reader.old) result reader.new }
{
    let found = expr_within(alloc, reader, depth)?;
    expect_word(reader, b")".as_slice())?;
    Ok(found)
}

/// What follows a condition, where only an arithmetic IF is sought.
fn jumps_behind(value: Expr, text: &[u8]) -> Result<Option<Stmt>, NoMemory>
    ensures { IfOk result (λ v. v ≡ spec.jumps_behind 0 value text.now) }
{
    if sees_digit(&Reader::new(text)) {
        arithmetic(value, text)
    } else {
        Ok(None)
    }
}

/// Whether a text begins with `IF(`.
fn is_if(text: &[u8]) -> bool
    ensures { result ≡ spec.is_if text.now }
{
    begins(b"IF(".as_slice(), text)
}

/// Whether a text is `THEN`.
fn is_then(text: &[u8]) -> bool
    ensures { result ≡ spec.is_then text.now }
{
    begins(b"THEN".as_slice(), text) && text.len() <= 4
}

/// A text without `IF(`.
fn behind_if(text: &[u8]) -> &[u8]
    ensures { result.now ≡ drop 3 text.now }
{
    text.split_at(text.len().min(3)).1
}

/// What follows `IF(`, if an arithmetic IF does.
fn if_with_jumps(alloc: Global, text: &[u8], depth: usize) -> Result<Option<Stmt>, NoMemory>
    ensures { IfOk result (λ v. v ≡ spec.if_by (spec.jumps_behind 0) (read depth spec.condition text.now)) }
{
    let mut reader = Reader::new(text);
    match condition(alloc, &mut reader, depth) {
        Ok(value) => jumps_behind(value, reader.rest()),
        Err(Unread::Unspelled) => Ok(None),
        Err(Unread::NoMemory) => Err(NoMemory),
    }
}

/// The statement that is read of a text, if a logical IF may hold it: Assign, Continue, Goto, ComputedGoto, ArithmeticIf,
/// Call, Return, Stop, Print or Read.
#[tactic(auto, unfolding(crate::specs::Statement::action_within))]
fn action(alloc: Global, text: &[u8], depth: usize) -> Result<Option<Stmt>, NoMemory>
    ensures { IfOk result (λ v. v ≡ spec.action_within depth text.now) }
{
    if let Some(found) = assigned(alloc, text, depth)? {
        return Ok(Some(found));
    }
    if is_if(text) {
        return if_with_jumps(alloc, behind_if(text), depth);
    }
    by_word(alloc, text, depth, false)
}

/// LogicalIf: `IF(` expr `)` and one of the statements that it may hold (ANSI X3.9-1978, section 11.5), after its
/// condition
fn logical(
    alloc: Global,
    condition: Expr,
    text: &[u8],
    depth: usize,
) -> Result<Option<Stmt>, NoMemory>
    ensures { IfOk result (λ v. v ≡ option_map (λ inner. stmt.LogicalIf condition inner) (spec.action_within depth text.now)) }
{
    match action(alloc, text, depth)? {
        Some(inner) => Ok(Some(Stmt::LogicalIf {
            condition,
            inner: Boxed::new(alloc, inner)?,
        })),
        None => Ok(None),
    }
}

/// What follows a condition: three labels, `THEN`, or a statement (ANSI X3.9-1978, sections 11.4 to 11.6)
fn any_behind(
    alloc: Global,
    condition: Expr,
    text: &[u8],
    depth: usize,
) -> Result<Option<Stmt>, NoMemory>
    ensures { IfOk result (λ v. v ≡ spec.any_behind depth condition text.now) }
{
    if sees_digit(&Reader::new(text)) {
        return arithmetic(condition, text);
    }
    if is_then(text) {
        return Ok(Some(Stmt::BlockIf(condition)));
    }
    logical(alloc, condition, text, depth)
}

/// What follows `IF(`.
fn if_with_any(alloc: Global, text: &[u8], depth: usize) -> Result<Option<Stmt>, NoMemory>
    ensures { IfOk result (λ v. v ≡ spec.if_by (spec.any_behind depth) (read depth spec.condition text.now)) }
{
    let mut reader = Reader::new(text);
    match condition(alloc, &mut reader, depth) {
        Ok(condition) => any_behind(alloc, condition, reader.rest(), depth),
        Err(Unread::Unspelled) => Ok(None),
        Err(Unread::NoMemory) => Err(NoMemory),
    }
}

/// The statement that is read of a text, in which parentheses nest less deep than `depth`.
#[tactic(auto, unfolding(crate::specs::Statement::statement_within))]
pub fn statement(alloc: Global, text: &[u8], depth: usize) -> Result<Option<Stmt>, NoMemory>
    ensures { IfOk result (λ v. v ≡ spec.statement_within depth text.now) }
{
    if let Some(found) = assigned(alloc, text, depth)? {
        return Ok(Some(found));
    }
    if is_if(text) {
        return if_with_any(alloc, behind_if(text), depth);
    }
    by_word(alloc, text, depth, true)
}
