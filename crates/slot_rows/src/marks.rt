//! A set of units, as marks in words, with a list of the words that have a mark.
ghost use Rattle.std.specs.Prelude.{◌≡◌, ◌<◌, ◌≤◌, ◌^◌, ◌++◌, ◌∷◌, [], true, if◌then◌else◌, vec_len, vec_capacity};
ghost use Rattle.slot_rows.specs.Filled.{AreFilled};

use crate::word::{BITS, first_mark, mark_at, with_mark, without_mark};
use hyb_base::no_memory::NoMemory;
use std::alloc::Global;

/// A set of units.
#[derive(Drop)]
pub struct Marks {
    /// The marks: of unit u at place u % 64 of word u / 64.
    words: Vec<u64>,
    /// The words that have a mark, each once.
    filled: Vec<usize>,
    ghost filled_are: { AreFilled words.items filled.items },
    ghost room: { vec_len words ≤ vec_capacity filled },
    ghost small: { vec_len words ≤ 2 ^ 58 },
}

impl Marks {
    ghost use Rattle.std.specs.Prelude.{◌/◌, ◌+◌, ◌==◌, ℕ, false, IfOk, IfNone, IfSome};
    ghost use Rattle.slot_rows.specs.Marks.{is_marked, words_of};

    /// The empty set, with room for units below a number.
    pub fn reserve(alloc: Global, units: usize) -> Result<Marks, NoMemory>
        ensures words { IfOk result (λ marks. words_of marks ≡ units / 64 + 1) }
        ensures none { IfOk result (λ marks. (u : ℕ) → is_marked marks u ≡ false) }
    {
        let count = units / BITS + 1;
        let words = Vec::from_elem(alloc, 0u64, count)?;
        let filled = Vec::with_capacity(alloc, count)?;
        Ok(Marks { words, filled })
    }

    /// Whether a unit is in it.
    pub fn has(&self, unit: usize) -> bool
        requires { unit / 64 < words_of self.now }
        ensures { result ≡ is_marked self.now unit }
    {
        mark_at(self.words[unit / BITS], (unit % BITS) as u32) == 1
    }

    /// Adds a unit. Takes no memory.
    pub fn add(&mut self, unit: usize)
        requires { unit / 64 < words_of self.old }
        ensures marked { (u : ℕ) → is_marked self.new u ≡ (if u == unit then true else is_marked self.old u) }
        ensures words { words_of self.new ≡ words_of self.old }
    {
        let place = unit / BITS;
        let word = self.words[place];
        push_if(&mut self.filled, place, word == 0);
        self.words[place] = with_mark(word, (unit % BITS) as u32);
    }

    /// Takes some unit out of it: none exactly where it is empty. Takes constant time.
    pub fn take(&mut self) -> Option<usize>
        ensures none { IfNone result ((u : ℕ) → is_marked self.old u ≡ false) }
        ensures was { IfSome result (λ unit. is_marked self.old unit ≡ true) }
        ensures taken { IfSome result (λ unit. (u : ℕ) → is_marked self.new u ≡ (if u == unit then false else is_marked self.old u)) }
        ensures empty { IfNone result ((u : ℕ) → is_marked self.new u ≡ false) }
        ensures words { words_of self.new ≡ words_of self.old }
    {
        let place = match self.filled.pop() {
            None => return None,
            Some(place) => place,
        };
        let word = self.words[place];
        let bit = first_mark(word);
        let rest = without_mark(word, bit);
        push_if(&mut self.filled, place, rest != 0);
        self.words[place] = rest;
        Some(place * BITS + bit as usize)
    }

    /// Takes all units out of it, in time that grows with their number alone.
    pub fn clear(&mut self)
        ensures none { (u : ℕ) → is_marked self.new u ≡ false }
        ensures words { words_of self.new ≡ words_of self.old }
    {
        while let Some(place) = self.filled.pop() {
            self.words[place] = 0;
        }
    }
}

/// Adds a place last, where it is wanted. A function of its own, since the join after `if` loses facts.
fn push_if(places: &mut Vec<usize>, place: usize, wanted: bool)
    requires { wanted ≡ true → vec_len places.old < vec_capacity places.old }
    ensures items { places.new.items ≡ (if wanted then places.old.items ++ place ∷ [] else places.old.items) }
    ensures capacity { vec_capacity places.new ≡ vec_capacity places.old }
{
    if wanted {
        places.push_reserved(place);
    }
}
