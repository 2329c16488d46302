//! The types that IMPLICIT gives letters (ANSI X3.9-1978, section 8.5).
ghost use Rattle.std.specs.Prelude.{◌≡◌, ◌++◌, ◌∷◌, [], ◌==◌, ℕ, List, None, Some, OnOk, if◌then◌else◌};
ghost use Rattle.std.specs.List.{list_any};
ghost use Rattle.std.specs.Option.{option_copied, option_or};
ghost use Rattle.f77_ast.specs.declared.specification.ImplicitRule.{ImplicitRule};
ghost use Rattle.f77_leaves.specs.Declarations as spec;
ghost use Rattle.f77_uses.specs.Letters.{given};

use crate::copies::{copy_typing, typing_by};
use f77_ast::specification::{ImplicitRule, LetterRange};
use f77_leaves::declarations::Typing;
use hyb_base::no_memory::NoMemory;
use indexmap::IndexMap;
use std::alloc::Global;

/// The type that each letter was given first.
#[derive(Drop)]
pub struct Letters {
    map: IndexMap<u8, Typing>,
}

/// The last letter of a range.
fn last_letter(range: LetterRange) -> u8
    ensures { result ≡ spec.last_letter range range.last }
{
    match range.last {
        None => range.first,
        Some(last) => last,
    }
}

impl Letters {
    /// No letter was given a type. It takes no memory.
    pub fn new(alloc: Global) -> Letters
        ensures { (letter : ℕ) → given result letter ≡ None }
    {
        Letters {
            map: IndexMap::new(alloc),
        }
    }

    /// The type that a letter was given first.
    pub fn find(&self, letter: u8) -> Option<&Typing>
        ensures { option_copied result ≡ given self.now letter }
    {
        self.map.get(&letter)
    }

    /// Gives a letter a type, unless it has one.
    fn give(&mut self, alloc: Global, letter: u8, typing: &Typing) -> Result<(), NoMemory>
        ensures { OnOk result ((other : ℕ) → given self.new other ≡ option_or (given self.old other) (if other == letter then Some typing.now else None)) }
    {
        if self.map.get(&letter).is_some() {
            return Ok(());
        }
        self.map.insert(letter, copy_typing(alloc, typing)?)?;
        Ok(())
    }

    /// Gives the letters of a range a type, each unless it has one.
    fn give_range(
        &mut self,
        alloc: Global,
        range: LetterRange,
        typing: &Typing,
    ) -> Result<(), NoMemory>
        ensures { OnOk result ((other : ℕ) → given self.new other ≡ option_or (given self.old other) (if spec.holds_letter other range then Some typing.now else None)) }
    {
        let first = u16::from(range.first);
        let past = first.max(u16::from(last_letter(range)) + 1);
        for letter in first..past {
            self.give(alloc, letter as u8, typing)?;
        }
        Ok(())
    }

    /// Gives the letters of ranges a type, each unless it has one.
    fn give_ranges(
        &mut self,
        alloc: Global,
        ranges: &[LetterRange],
        typing: &Typing,
    ) -> Result<(), NoMemory>
        ensures { OnOk result ((other : ℕ) → given self.new other ≡ option_or (given self.old other) (if list_any (spec.holds_letter other) ranges.now then Some typing.now else None)) }
    {
        for range in ranges {
            self.give_range(alloc, *range, typing)?;
        }
        Ok(())
    }

    /// Takes a rule of IMPLICIT.
    fn note(&mut self, alloc: Global, rule: &ImplicitRule) -> Result<(), NoMemory>
        ensures { OnOk result ((other : ℕ) → given self.new other ≡ option_or (given self.old other) (spec.implied_by (rule.now ∷ []) other)) }
    {
        let typing = typing_by(alloc, &rule.typ, &None)?;
        self.give_ranges(alloc, rule.letters.as_slice(), &typing)
    }

    /// Takes the rules of IMPLICIT.
    pub fn note_all(&mut self, alloc: Global, rules: &[ImplicitRule]) -> Result<(), NoMemory>
        ensures { OnOk result ((other : ℕ) → given self.new other ≡ option_or (given self.old other) (spec.implied_by rules.now other)) }
    {
        for rule in rules {
            self.note(alloc, rule)?;
        }
        Ok(())
    }
}
