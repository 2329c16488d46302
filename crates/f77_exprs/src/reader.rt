//! What is left of a text while an expression is read from it, and the smallest parts that are taken from it.
ghost use Rattle.std.specs.Prelude.{◌≡◌, ◌≤◌, ◌<◌, ◌^◌, [], ◌∷◌, true, length, take, drop, pos, MatchOption, OnSome, SomeIff, Some, IsOkUnless};
ghost use Rattle.std.specs.List.{list_all};
ghost use Rattle.std.specs.Char.{is_ascii_digit};
ghost use Rattle.hyb_base.specs.Decimal.{IsDigits, value_of};
ghost use Rattle.f77_ast.specs.Name.{is_alphanumeric};
ghost use Rattle.f77_exprs.specs.Read.{Reads};
ghost use Rattle.f77_exprs.specs.Operators as operators;
ghost use Rattle.f77_exprs.specs.Climbing as climbing;
ghost use Rattle.f77_exprs.specs.Reading as spec;

use crate::operators::{Infix, Prefix, begins, infix_at, prefix_at};
use crate::unread::Unread;
use f77_ast::expr::Expr;
use f77_ast::name::Name;
use std::marker::Model;

/// The operators before an operand.
#[derive(Clone, Copy)]
pub struct Heads {
    /// `.NOT.`, at the head of a negation.
    negation: Option<Prefix>,
    /// `+` or `-`, at the head of a sum.
    sign: Option<Prefix>,
}

impl Heads {
    /// The operator at the head of a level.
    pub fn of(self, level: usize) -> Option<Prefix>
        ensures { result ≡ climbing.head_at self level }
    {
        match level {
            3 => self.sign,
            6 => self.negation,
            _ => None,
        }
    }
}

/// What is left of a text. What is left after an error isn't said.
#[derive(Drop)]
pub struct Reader<'a> {
    rest: &'a [u8],
}

impl<'a> Model for Reader<'a> {
    ghost use Rattle.std.specs.Prelude.{List, ℕ};

    ghost Value = { List ℕ };

    ghost view = { λ r. r.rest.now };
}

impl<'a> Reader<'a> {
    /// A whole text.
    pub fn new(text: &'a [u8]) -> Reader<'a>
        ensures { result ≡ text.now }
    {
        Reader { rest: text }
    }

    /// Whether nothing is left.
    pub fn is_empty(&self) -> bool
        ensures { result ≡ spec.is_empty self.now }
    {
        self.rest.is_empty()
    }

    /// What is left.
    pub fn rest(&self) -> &'a [u8]
        ensures { result.now ≡ self.now }
    {
        self.rest
    }

    /// Takes the byte that comes next.
    pub fn next_byte(&mut self) -> Option<u8>
        ensures { MatchOption result ((self.old ≡ []) × (self.new ≡ [])) (λ byte. self.old ≡ byte ∷ self.new) }
    {
        match self.rest {
            [first, rest @ ..] => {
                self.rest = rest;
                Some(*first)
            }
            [] => None,
        }
    }

    /// Takes a byte, where it comes next.
    pub fn eat(&mut self, byte: u8) -> bool
        ensures found { result ≡ spec.sees byte self.old }
        ensures after { self.new ≡ spec.after byte self.old }
        ensures within { length self.new ≤ length self.old }
        ensures shorter { result ≡ true → length self.new < length self.old }
    {
        match self.rest {
            [first, rest @ ..] if *first == byte => {
                self.rest = rest;
                true
            }
            _ => false,
        }
    }

    /// Takes a word, where it comes next.
    pub fn eat_word(&mut self, word: &[u8]) -> bool
        ensures found { result ≡ operators.begins word.now self.old }
        ensures after { self.new ≡ spec.after_word word.now self.old }
        ensures within { length self.new ≤ length self.old }
    {
        if begins(word, self.rest) {
            self.skip(word.len());
            true
        } else {
            false
        }
    }

    /// Takes a byte, which must come next: `Unspelled` exactly where it doesn't.
    pub fn expect(&mut self, byte: u8) -> Result<(), Unread>
        ensures value { Reads (spec.expect byte self.old) result self.new }
        ensures within { length self.new ≤ length self.old }
        ensures err { IsOkUnless result Unread.Unspelled }
    {
        if self.eat(byte) {
            Ok(())
        } else {
            Err(Unread::Unspelled)
        }
    }

    /// Takes the operator of a level between two operands, where one comes next.
    pub fn take_infix(&mut self, level: usize) -> Option<Infix>
        ensures found { result ≡ operators.infix_at level self.old }
        ensures after { self.new ≡ spec.after_infix level self.old }
        ensures within { length self.new ≤ length self.old }
        ensures shorter { OnSome result (length self.new < length self.old) }
    {
        let found = infix_at(level, self.rest);
        if let Some(operator) = found {
            self.skip(operator.spelling().len());
        }
        found
    }

    /// Takes the operator at the head of a level, where one comes next.
    pub fn take_prefix(&mut self, level: usize) -> Option<Prefix>
        ensures found { result ≡ operators.prefix_at level self.old }
        ensures after { self.new ≡ spec.after_prefix level self.old }
        ensures within { length self.new ≤ length self.old }
    {
        let found = prefix_at(level, self.rest);
        if let Some(operator) = found {
            self.skip(operator.spelling().len());
        }
        found
    }

    /// Takes the operators before the first operand of a level and of those under it.
    pub fn take_heads(&mut self, level: usize) -> Heads
        ensures value { climbing.heads level self.old ≡ Some (result, self.new) }
        ensures within { length self.new ≤ length self.old }
    {
        let negation = self.take_head(level, 6);
        let sign = self.take_head(level, 3);
        Heads { negation, sign }
    }

    /// Takes the operator at the head of a level, where that is no higher than another.
    fn take_head(&mut self, top: usize, level: usize) -> Option<Prefix>
        ensures value { climbing.head_of top level self.old ≡ Some (result, self.new) }
        ensures within { length self.new ≤ length self.old }
    {
        if level <= top {
            self.take_prefix(level)
        } else {
            None
        }
    }

    /// Takes a number, where a digit comes next: digits of value at most 2^63 - 1 (ANSI X3.9-1978, section 4.3.1).
    /// `Unspelled` exactly where the digits that come next are worth more.
    pub fn number(&mut self) -> Result<Option<Expr>, Unread>
        ensures value { Reads (spec.number self.old) result self.new }
        ensures within { length self.new ≤ length self.old }
        ensures err { IsOkUnless result Unread.Unspelled }
    {
        let count = digits(self.rest);
        if count == 0 {
            return Ok(None);
        }
        let (text, rest) = self.rest.split_at(count);
        match number_of(text) {
            Some(value) => {
                self.rest = rest;
                Ok(Some(Expr::Int(value)))
            }
            None => Err(Unread::Unspelled),
        }
    }

    /// Takes all digits that come next.
    pub fn take_digits(&mut self) -> &'a [u8]
        ensures digits { result.now ≡ take (spec.digits self.old) self.old }
        ensures after { self.new ≡ drop (spec.digits self.old) self.old }
        ensures within { length self.new ≤ length self.old }
    {
        let (text, rest) = self.rest.split_at(digits(self.rest));
        self.rest = rest;
        text
    }

    /// Takes a name: one to six letters and digits, the first of which is a letter (ANSI X3.9-1978, section 2.2).
    /// `Unspelled` exactly where all letters and digits that come next aren't such a name.
    pub fn name(&mut self) -> Result<Name, Unread>
        ensures value { Reads (spec.name self.old) result self.new }
        ensures within { length self.new ≤ length self.old }
        ensures err { IsOkUnless result Unread.Unspelled }
    {
        let (text, rest) = self.rest.split_at(alphanumerics(self.rest));
        match Name::new(text) {
            Some(name) => {
                self.rest = rest;
                Ok(name)
            }
            None => Err(Unread::Unspelled),
        }
    }

    /// Takes `count` bytes, or all.
    fn skip(&mut self, count: usize)
        ensures { self.new ≡ drop count self.old }
    {
        let (_, rest) = self.rest.split_at(count.min(self.rest.len()));
        self.rest = rest;
    }
}

/// How many digits a text begins with.
pub fn digits(text: &[u8]) -> usize
    ensures value { result ≡ spec.digits text.now }
    ensures within { result ≤ length text.now }
{
    text.iter().take_while(|byte| byte.is_ascii_digit()).count()
}

/// How many letters and digits a text begins with.
pub fn alphanumerics(text: &[u8]) -> usize
    ensures value { result ≡ spec.alphanumerics text.now }
    ensures within { result ≤ length text.now }
{
    text.iter()
        .take_while(|byte| is_alphanumeric(**byte))
        .count()
}

/// The value of digits: none exactly where there is none, or it is past 2^63 - 1.
pub fn number_of(digits: &[u8]) -> Option<i64>
    ensures { SomeIff result (IsDigits digits.now × (value_of digits.now < 2 ^ 63)) (pos (value_of digits.now)) }
{
    if !are_digits(digits) {
        return None;
    }
    match str::from_utf8(digits) {
        Ok(text) => text.parse().ok(),
        Err(_) => None,
    }
}

/// Whether each byte of a text is a digit.
fn are_digits(text: &[u8]) -> bool
    ensures { result ≡ list_all is_ascii_digit text.now }
{
    text.iter().all(|byte| byte.is_ascii_digit())
}

/// Whether a byte is an upper-case letter or a digit.
pub fn is_alphanumeric(byte: u8) -> bool
    ensures { result ≡ is_alphanumeric byte }
{
    (b'A'..=b'Z').contains(&byte) || (b'0'..=b'9').contains(&byte)
}
