//! The tables of a unit's declarations, and what they tell of a name.
ghost use Rattle.std.specs.Prelude.{◌≡◌};
ghost use Rattle.f77_leaves.specs.Declarations as spec;
ghost use Rattle.f77_uses.specs.Tables.{told_by};

use crate::known_names::KnownNames;
use crate::letters::Letters;
use f77_ast::expr::Kind;
use f77_ast::name::Name;

/// The tables of a unit's declarations.
#[derive(Drop)]
pub struct Tables {
    /// What they say of its names.
    pub names: KnownNames,
    /// The types that IMPLICIT gives letters.
    pub letters: Letters,
}

/// The kind that a letter has without IMPLICIT: I to N are INTEGER, and other letters REAL, which is no kind here.
fn default_kind(letter: u8) -> Option<Kind>
    ensures { result ≡ spec.kind_in (spec.default_typing letter) }
{
    if (b'I'..=b'N').contains(&letter) {
        Some(Kind::Integer)
    } else {
        None
    }
}

impl Tables {
    /// The kind that a letter has.
    fn implied_kind(&self, letter: u8) -> Option<Kind>
        ensures { result ≡ spec.kind_in (spec.implied_typing (told_by self.now) letter) }
    {
        match self.letters.find(letter) {
            None => default_kind(letter),
            Some(typing) => Some(typing.kind),
        }
    }

    /// The kind of a name that no type statement names: that of its first letter.
    fn implicit_kind(&self, name: &[u8]) -> Option<Kind>
        ensures { result ≡ spec.kind_in (spec.implicit_typing (told_by self.now) name.now) }
    {
        match name {
            [] => None,
            [letter, ..] => self.implied_kind(*letter),
        }
    }

    /// The kind of a name: none of one that would be REAL.
    pub fn kind_of(&self, name: &Name) -> Option<Kind>
        ensures { result ≡ spec.name_kind (told_by self.now) name.now }
    {
        match self.names.typed_kind(name) {
            None => self.implicit_kind(name.as_slice()),
            Some(kind) => Some(kind),
        }
    }
}
