//! Symbolic names.
ghost use Rattle.std.specs.Prelude.{◌≡◌, ◌↔◌, ◌≤◌, length, IsTrue};
ghost use Rattle.std.specs.List.{list_all};
ghost use Rattle.std.specs.Option.{SomeIff};
ghost use Rattle.f77_ast.specs.Name.{IsName, is_letter, is_digit, is_alphanumeric, is_name};

use arrayvec::ArrayVec;
use std::hash::{Hash, Hasher};
use std::marker::Model;

/// symbolic name: one to six letters or digits, the first of which must be a letter
/// (ANSI X3.9-1978, section 2.2).
///
/// Letters are the upper-case ones, `A` to `Z`.
#[derive(Debug, Drop)]
pub struct Name {
    letters: ArrayVec<u8, 6>,
}

impl Model for Name {
    ghost use Rattle.std.specs.Prelude.{List, ℕ};
    ghost use Rattle.f77_ast.specs.Name.{IsName};

    ghost Value = { List ℕ };

    ghost view = { λ n. n.letters.items };

    ghost invariant = { λ n. IsName n.letters.items };

    ghost inverse = { λ text. record { letters = record { items = text } } };
}

impl Name {
    /// The name that a text spells: none exactly where the text is no symbolic name.
    pub fn new(text: &[u8]) -> Option<Name>
        ensures { SomeIff result (IsName text.now) text.now }
    {
        if !is_name(text) {
            return None;
        }
        Some(Name {
            letters: packed(text),
        })
    }

    /// Its letters and digits.
    pub fn as_slice(&self) -> &[u8]
        ensures value { result.now ≡ self.now }
        ensures name { IsName result.now }
    {
        self.letters.as_slice()
    }

    /// A copy. It takes no memory.
    pub fn copy(&self) -> Name
        ensures { result ≡ self.now }
    {
        Name {
            letters: packed(self.letters.as_slice()),
        }
    }
}

impl PartialEq for Name {
    ghost use Rattle.std.specs.Prelude.{nat_eq};
    ghost use Rattle.std.specs.Cmp.{partial_equiv_from_equiv};
    ghost use Rattle.std.specs.Cmp.Lexicographic.{pointwise, nat_list_eq_equiv};

    ghost eq = { pointwise nat_eq };

    ghost laws = { partial_equiv_from_equiv nat_list_eq_equiv };

    fn eq(&self, other: &Name) -> bool
        ensures value { result ≡ pointwise nat_eq self.now other.now }
        ensures same { IsTrue result ↔ (self.now ≡ other.now) }
    {
        self.as_slice() == other.as_slice()
    }
}

impl Eq for Name {
    ghost use Rattle.std.specs.Cmp.Lexicographic.{nat_list_eq_equiv};

    ghost laws = { nat_list_eq_equiv };
}

impl Hash for Name {
    ghost use Rattle.std.specs.Hash as fed;
    ghost use Rattle.std.specs.Cmp.Rules.{hashing};
    ghost use Rattle.std.proofs.Common.{rules};

    ghost hash_input = { λ name. fed.slice fed.u8 name };

    ghost respects_eq = { Prim.search (hashing, rules) };

    fn hash<H: Hasher>(&self, state: &mut H) {
        self.as_slice().hash(state);
    }
}

/// At most six bytes, packed.
fn packed(text: &[u8]) -> ArrayVec<u8, 6>
    requires { length text.now ≤ 6 }
    ensures { result.items ≡ text.now }
{
    ArrayVec::try_from(text).unwrap()
}

/// Whether a text is a symbolic name.
fn is_name(text: &[u8]) -> bool
    ensures { result ≡ is_name text.now }
{
    match text.split_first() {
        None => false,
        Some((first, rest)) => { is_letter(*first) && rest.len() <= 5 && are_alphanumeric(rest) }
    }
}

/// Whether all bytes are letters or digits.
fn are_alphanumeric(text: &[u8]) -> bool
    ensures { result ≡ list_all is_alphanumeric text.now }
{
    text.iter().all(|byte| is_alphanumeric(*byte))
}

/// Whether a byte is an upper-case letter.
fn is_letter(byte: u8) -> bool
    ensures { result ≡ is_letter byte }
{
    (b'A'..=b'Z').contains(&byte)
}

/// Whether a byte is a decimal digit.
fn is_digit(byte: u8) -> bool
    ensures { result ≡ is_digit byte }
{
    (b'0'..=b'9').contains(&byte)
}

/// Whether a byte is a letter or a digit.
fn is_alphanumeric(byte: u8) -> bool
    ensures { result ≡ is_alphanumeric byte }
{
    is_letter(byte) || is_digit(byte)
}
