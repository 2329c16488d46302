//! The grammar of expressions, read by recursive descent: a function for each rule (ANSI X3.9-1978, section 6).
ghost use Rattle.std.specs.Prelude.{◌≡◌, ◌≤◌, ◌<◌, ◌+◌, ℕ, length, IfOk};
ghost use Rattle.f77_exprs.specs.Spelling.{reference_of, part_of};
ghost use Rattle.f77_exprs.specs.Read.{Reads};
ghost use Rattle.f77_exprs.specs.Operators as operators;
ghost use Rattle.f77_exprs.specs.Reading as spec;

use crate::operand::literal;
use crate::operators::{Infix, Prefix};
use crate::reader::Reader;
use crate::unread::Unread;
use f77_ast::expr::{Expr, Part, Ref};
use f77_ast::name::Name;
use hyb_base::no_memory::NoMemory;
use sqlite_items::{Boxed, Items};
use std::alloc::Global;

/// An operand after its operator, where it has one.
fn prefixed(alloc: Global, operator: Option<Prefix>, operand: Expr) -> Result<Expr, NoMemory>
    ensures { IfOk result (λ e. e ≡ spec.prefixed operator operand) }
{
    match operator {
        None => Ok(operand),
        Some(operator) => Ok(Expr::Unary(operator.operator(), Boxed::new(alloc, operand)?)),
    }
}

/// Two operands and the operator between them.
fn binary(alloc: Global, operator: Infix, left: Expr, right: Expr) -> Result<Expr, NoMemory>
    ensures { IfOk result (λ e. e ≡ spec.binary operator left right) }
{
    Ok(Expr::Binary(
        operator.operator(),
        Boxed::new(alloc, left)?,
        Boxed::new(alloc, right)?,
    ))
}

/// A reference.
fn reference_of(name: Name, args: Option<Items<Expr>>, part: Option<Boxed<Part>>) -> Expr
    ensures { result ≡ reference_of name args part }
{
    Expr::Ref(Ref { name, args, part })
}

/// The bounds of a substring.
fn part_of(alloc: Global, low: Option<Expr>, high: Option<Expr>) -> Result<Boxed<Part>, NoMemory>
    ensures { IfOk result (λ part. part ≡ part_of low high) }
{
    Ok(Boxed::new(alloc, Part { low, high })?)
}

/// `[expr]` before a byte.
#[cycle(grammar)]
fn bound(
    alloc: Global,
    reader: &mut Reader<'_>,
    depth: usize,
    end: u8,
) -> Result<Option<Expr>, Unread>
    ensures value { Reads (spec.bound (spec.expr_within depth) end reader.old) result reader.new }
    ensures within { length reader.new ≤ length reader.old }
{
    if reader.eat(end) {
        return Ok(None);
    }
    let found = expr_within(alloc, reader, depth)?;
    reader.expect(end)?;
    Ok(Some(found))
}

/// ref: an optional `(` [expr] `:` [expr] `)` (ANSI X3.9-1978, section 5.7.1).
#[cycle(grammar)]
fn substring(
    alloc: Global,
    reader: &mut Reader<'_>,
    depth: usize,
) -> Result<Option<Boxed<Part>>, Unread>
    ensures value { Reads (spec.substring (spec.expr_within depth) reader.old) result reader.new }
    ensures within { length reader.new ≤ length reader.old }
{
    if !reader.eat(b'(') {
        return Ok(None);
    }
    let low = bound(alloc, reader, depth, b':')?;
    let high = bound(alloc, reader, depth, b')')?;
    Ok(Some(part_of(alloc, low, high)?))
}

/// list(expr), after its first expr.
#[cycle(grammar)]
fn arguments(
    alloc: Global,
    reader: &mut Reader<'_>,
    depth: usize,
    first: Expr,
) -> Result<Items<Expr>, Unread>
    ensures value { Reads (spec.arguments (spec.expr_within depth) first reader.old) result reader.new }
    ensures within { length reader.new ≤ length reader.old }
{
    let mut found = Items::new(alloc);
    found.push(first)?;
    while reader.eat(b',') {
        let next = expr_within(alloc, reader, depth)?;
        found.push(next)?;
    }
    Ok(found)
}

/// ref: a list of none or more expr, which is read, and then an optional `(` [expr] `:` [expr] `)`.
#[cycle(grammar)]
fn with_part(
    alloc: Global,
    reader: &mut Reader<'_>,
    depth: usize,
    name: Name,
    all: Items<Expr>,
) -> Result<Expr, Unread>
    ensures value { Reads (spec.with_part (spec.expr_within depth) name all reader.old) result reader.new }
    ensures within { length reader.new ≤ length reader.old }
{
    let part = substring(alloc, reader, depth)?;
    Ok(reference_of(name, Some(all), part))
}

/// ref: a substring without a list, whose low bound is read.
#[cycle(grammar)]
fn with_low(
    alloc: Global,
    reader: &mut Reader<'_>,
    depth: usize,
    name: Name,
    low: Option<Expr>,
) -> Result<Expr, Unread>
    ensures value { Reads (spec.with_low (spec.expr_within depth) name low reader.old) result reader.new }
    ensures within { length reader.new ≤ length reader.old }
{
    let high = bound(alloc, reader, depth, b')')?;
    Ok(reference_of(name, None, Some(part_of(alloc, low, high)?)))
}

/// ref: what follows its first expr.
#[cycle(grammar)]
fn with_first(
    alloc: Global,
    reader: &mut Reader<'_>,
    depth: usize,
    name: Name,
    first: Expr,
) -> Result<Expr, Unread>
    ensures value { Reads (spec.with_first (spec.expr_within depth) name first reader.old) result reader.new }
    ensures within { length reader.new ≤ length reader.old }
{
    if reader.eat(b':') {
        return with_low(alloc, reader, depth, name, Some(first));
    }
    let all = arguments(alloc, reader, depth, first)?;
    reader.expect(b')')?;
    with_part(alloc, reader, depth, name, all)
}

/// ref: what follows name `(`.
#[cycle(grammar)]
fn opened(alloc: Global, reader: &mut Reader<'_>, depth: usize, name: Name) -> Result<Expr, Unread>
    ensures value { Reads (spec.opened (spec.expr_within depth) name reader.old) result reader.new }
    ensures within { length reader.new ≤ length reader.old }
{
    if reader.eat(b')') {
        return with_part(alloc, reader, depth, name, Items::new(alloc));
    }
    if reader.eat(b':') {
        return with_low(alloc, reader, depth, name, None);
    }
    let first = expr_within(alloc, reader, depth)?;
    with_first(alloc, reader, depth, name, first)
}

/// ref: name; name with `(` list of none or more expr `)`; either followed by `(` [expr] `:` [expr] `)`
/// (ANSI X3.9-1978, sections 2.2, 5.3, 5.7.1 and 15.2).
///
/// # Errors
///
/// `Unspelled` exactly where the text doesn't begin with a ref, as the definition reads it. `NoMemory` where memory failed.
#[cycle(grammar)]
pub fn reference(alloc: Global, reader: &mut Reader<'_>, depth: usize) -> Result<Expr, Unread>
    ensures value { Reads (spec.reference (spec.expr_within depth) reader.old) result reader.new }
    ensures within { length reader.new ≤ length reader.old }
{
    let name = reader.name()?;
    if !reader.eat(b'(') {
        return Ok(reference_of(name, None, None));
    }
    opened(alloc, reader, depth, name)
}

/// primary: `(` expr `)`; a constant; ref (ANSI X3.9-1978, section 6.1.2.1).
#[cycle(grammar)]
fn primary(alloc: Global, reader: &mut Reader<'_>, depth: usize) -> Result<Expr, Unread>
    ensures value { Reads (spec.primary (spec.expr_within depth) reader.old) result reader.new }
    ensures within { length reader.new ≤ length reader.old }
{
    if reader.eat(b'(') {
        let inner = expr_within(alloc, reader, depth)?;
        reader.expect(b')')?;
        return Ok(Expr::Paren(Boxed::new(alloc, inner)?));
    }
    match literal(alloc, reader)? {
        Some(constant) => Ok(constant),
        None => reference(alloc, reader, depth),
    }
}

/// factor: primary; primary `**` factor, after its first primary (ANSI X3.9-1978, section 6.1.2.2).
#[cycle(grammar)]
fn power(alloc: Global, reader: &mut Reader<'_>, depth: usize, left: Expr) -> Result<Expr, Unread>
    ensures value { (turns : ℕ) → length reader.old ≤ turns → Reads (spec.power_within depth turns left reader.old) result reader.new }
    ensures within { length reader.new ≤ length reader.old }
{
    match reader.take_infix(1) {
        None => Ok(left),
        Some(operator) => {
            let base = primary(alloc, reader, depth)?;
            let right = power(alloc, reader, depth, base)?;
            Ok(binary(alloc, operator, left, right)?)
        }
    }
}

/// relation: chars; chars relop chars, after its first chars (ANSI X3.9-1978, sections 6.3.2 and 6.3.4).
#[cycle(grammar)]
fn relation(
    alloc: Global,
    reader: &mut Reader<'_>,
    depth: usize,
    left: Expr,
) -> Result<Expr, Unread>
    ensures value { Reads (spec.one_operator_at_most (spec.level_within depth 4) 5 left reader.old) result reader.new }
    ensures within { length reader.new ≤ length reader.old }
{
    match reader.take_infix(5) {
        None => Ok(left),
        Some(operator) => {
            let right = level(alloc, reader, depth, 4)?;
            Ok(binary(alloc, operator, left, right)?)
        }
    }
}

/// term, sum, chars, conjunction, disjunction and expr, which group to the left, after the first operand, which is of
/// the level `below` (ANSI X3.9-1978, sections 6.1.2, 6.2.2 and 6.4.2).
#[cycle(grammar)]
fn chain(
    alloc: Global,
    reader: &mut Reader<'_>,
    depth: usize,
    below: usize,
    first: Expr,
) -> Result<Expr, Unread>
    requires { below ≤ 8 }
    ensures value { Reads (spec.rest_of operators.to_left (spec.level_within depth below) (below + 1) first reader.old) result reader.new }
    ensures within { length reader.new ≤ length reader.old }
{
    let mut left = first;
    while let Some(operator) = reader.take_infix(below + 1) {
        let right = level(alloc, reader, depth, below)?;
        left = binary(alloc, operator, left, right)?;
    }
    Ok(left)
}

/// What is at the level above `below` after its first operand.
#[cycle(grammar)]
fn rest_of(
    alloc: Global,
    reader: &mut Reader<'_>,
    depth: usize,
    below: usize,
    first: Expr,
) -> Result<Expr, Unread>
    requires { below ≤ 8 }
    ensures value { Reads (spec.rest_within depth below first reader.old) result reader.new }
    ensures within { length reader.new ≤ length reader.old }
{
    match below {
        0 => power(alloc, reader, depth, first),
        4 => relation(alloc, reader, depth, first),
        _ => chain(alloc, reader, depth, below, first),
    }
}

/// A level of the grammar, counted from the tightest: 0 primary, 1 factor, 2 term, 3 sum, 4 chars, 5 relation,
/// 6 negation, 7 conjunction, 8 disjunction, 9 expr.
///
/// The operators before the first operand of a level, and of the levels under it, are before all else: `.NOT.`, then a
/// sign. So they are taken first, and then the levels are gone through from the tightest.
#[cycle(grammar)]
fn level(alloc: Global, reader: &mut Reader<'_>, depth: usize, top: usize) -> Result<Expr, Unread>
    requires { top ≤ 9 }
    ensures value { Reads (spec.level_within depth top reader.old) result reader.new }
    ensures within { length reader.new ≤ length reader.old }
{
    let heads = reader.take_heads(top);
    let mut left = primary(alloc, reader, depth)?;
    for below in 0..top {
        let first = prefixed(alloc, heads.of(below + 1), left)?;
        left = rest_of(alloc, reader, depth, below, first)?;
    }
    Ok(left)
}

/// The expr that comes next, in which parentheses nest less deep than `depth`. Where they nest as deep, nothing is read.
///
/// # Errors
///
/// `Unspelled` exactly where the text doesn't begin with such an expr, as the definition reads it. `NoMemory` where memory
/// failed.
#[cycle(grammar)]
pub fn expr_within(alloc: Global, reader: &mut Reader<'_>, depth: usize) -> Result<Expr, Unread>
    ensures value { Reads (spec.expr_within depth reader.old) result reader.new }
    ensures within { length reader.new ≤ length reader.old }
{
    if depth == 0 {
        return Err(Unread::Unspelled);
    }
    level(alloc, reader, depth - 1, 9)
}
