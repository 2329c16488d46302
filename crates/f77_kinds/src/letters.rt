//! The letters of IMPLICIT (ANSI X3.9-1978, section 8.5).
ghost use Rattle.std.specs.Prelude.{◌≡◌, ◌++◌, ◌||◌, ◌==◌, ℕ, false, IfOk, OnOk};
ghost use Rattle.std.specs.List.{flat_map, list_any};
ghost use Rattle.f77_ast.specs.Refusal.{first_of};
ghost use Rattle.f77_kinds.specs.Letters as spec;
ghost use Rattle.f77_kinds.specs.Named.{is_named};
ghost use Rattle.f77_leaves.specs.Declarations.{last_letter, rules_in};
ghost use Rattle.f77_uses.specs.Refused.{broken_by};

use crate::refused::refused_if;
use f77_ast::program::Listed;
use f77_ast::refusal::{Refusal, sooner};
use f77_ast::rule::Rule;
use f77_ast::specification::{ImplicitRule, LetterRange};
use f77_ast::stmt::Stmt;
use hyb_base::bytes::Bytes;
use hyb_base::no_memory::NoMemory;
use indexmap::IndexMap;
use std::alloc::Global;

/// The last letter of a range.
fn last_letter(range: LetterRange) -> u8
    ensures { result ≡ last_letter range range.last }
{
    match range.last {
        None => range.first,
        Some(last) => last,
    }
}

/// Whether the second letter of a range is before the first in the alphabet.
fn is_backward(range: LetterRange) -> bool
    ensures { result ≡ spec.is_backward range }
{
    last_letter(range) < range.first
}

/// Whether a rule has such a range.
fn has_backward(rule: &ImplicitRule) -> bool
    ensures { result ≡ spec.has_backward rule.now }
{
    rule.letters
        .as_slice()
        .iter()
        .any(|range| is_backward(*range))
}

/// Whether one of some rules has.
fn is_any_backward(rules: &[ImplicitRule]) -> bool
    ensures { result ≡ list_any spec.has_backward rules.now }
{
    rules.iter().any(|rule| has_backward(rule))
}

/// Adds the letters of a range.
fn add_range(range: LetterRange, into: &mut Bytes) -> Result<(), NoMemory>
    ensures { OnOk result (into.new ≡ into.old ++ spec.range_letters range) }
{
    let first = u16::from(range.first);
    let past = u16::from(last_letter(range)) + 1;
    for letter in first..past {
        into.push(letter as u8)?;
    }
    Ok(())
}

/// Adds the letters that a rule names.
fn add_rule(rule: &ImplicitRule, into: &mut Bytes) -> Result<(), NoMemory>
    ensures { OnOk result (into.new ≡ into.old ++ spec.rule_letters rule.now) }
{
    for range in rule.letters.as_slice() {
        add_range(*range, into)?;
    }
    Ok(())
}

/// The rules of IMPLICIT in a statement.
fn rules_in(stmt: &Stmt) -> &[ImplicitRule]
    ensures { result.now ≡ rules_in stmt.now }
{
    match stmt {
        Stmt::Assign { .. } => &[],
        Stmt::Do { .. } => &[],
        Stmt::Continue => &[],
        Stmt::Return => &[],
        Stmt::Else => &[],
        Stmt::EndIf => &[],
        Stmt::End => &[],
        Stmt::Stop(_) => &[],
        Stmt::Goto(_) => &[],
        Stmt::ComputedGoto { .. } => &[],
        Stmt::ArithmeticIf { .. } => &[],
        Stmt::LogicalIf { .. } => &[],
        Stmt::BlockIf(_) => &[],
        Stmt::ElseIf(_) => &[],
        Stmt::Call { .. } => &[],
        Stmt::Print(_) => &[],
        Stmt::Read(_) => &[],
        Stmt::Program(_) => &[],
        Stmt::Subroutine { .. } => &[],
        Stmt::Function { .. } => &[],
        Stmt::Declare { .. } => &[],
        Stmt::Dimension(_) => &[],
        Stmt::Common(_) => &[],
        Stmt::Equivalence(_) => &[],
        Stmt::Parameter(_) => &[],
        Stmt::Implicit(rules) => rules.as_slice(),
        Stmt::Save(_) => &[],
        Stmt::Init(_) => &[],
    }
}

/// The letters that some rules name, in order.
fn letters_in(alloc: Global, rules: &[ImplicitRule]) -> Result<Bytes, NoMemory>
    ensures { IfOk result (λ letters. letters ≡ flat_map spec.rule_letters rules.now) }
{
    let mut letters = Bytes::new(alloc);
    for rule in rules {
        add_rule(rule, &mut letters)?;
    }
    Ok(letters)
}

/// One of two tests. A function of its own, since the join after `||` loses facts in a loop.
fn or(one: bool, other: bool) -> bool
    ensures { result ≡ (one || other) }
{
    one || other
}

/// The letters that are named by now.
#[derive(Drop)]
pub struct Named {
    map: IndexMap<u8, ()>,
}

impl Named {
    /// No letter is named. It takes no memory.
    fn new(alloc: Global) -> Named
        ensures { (letter : ℕ) → is_named result letter ≡ false }
    {
        Named {
            map: IndexMap::new(alloc),
        }
    }

    /// Whether a letter is named.
    fn has(&self, letter: u8) -> bool
        ensures { result ≡ is_named self.now letter }
    {
        self.map.get(&letter).is_some()
    }

    /// Names a letter; whether it was named before.
    fn note(&mut self, letter: u8) -> Result<bool, NoMemory>
        ensures again { IfOk result (λ again. again ≡ is_named self.old letter) }
        ensures noted { OnOk result ((other : ℕ) → is_named self.new other ≡ (is_named self.old other || letter == other)) }
    {
        let again = self.has(letter);
        self.map.insert(letter, ())?;
        Ok(again)
    }

    /// Names letters in order; whether one of them was named before.
    fn note_all(&mut self, letters: &[u8]) -> Result<bool, NoMemory>
        ensures again { IfOk result (λ again. again ≡ spec.has_again (is_named self.old) letters.now) }
        ensures noted { OnOk result ((other : ℕ) → is_named self.new other ≡ (is_named self.old other || spec.is_among letters.now other)) }
    {
        let mut again = false;
        for letter in letters {
            let named = self.note(*letter)?;
            again = or(again, named);
        }
        Ok(again)
    }
}

/// TypeClash: the first IMPLICIT of a unit that names a letter which is named before it, or has a range in wrong order.
pub fn letters_break(alloc: Global, unit: &[Listed]) -> Result<Option<Refusal>, NoMemory>
    ensures { IfOk result (λ first. first ≡ first_of (broken_by Rule.TypeClash (spec.breaks_letters unit.now) 0 unit.now)) }
{
    let mut first = None;
    let mut named = Named::new(alloc);
    for listed in unit {
        let rules = rules_in(&listed.stmt);
        let letters = letters_in(alloc, rules)?;
        let again = named.note_all(letters.as_slice())?;
        let breaks = or(is_any_backward(rules), again);
        first = sooner(first, refused_if(breaks, listed, Rule::TypeClash));
    }
    Ok(first)
}
