//! The numbers of one slot.
ghost use Rattle.std.specs.Prelude.{◌≡◌, ◌<◌, ◌≤◌, ◌*◌, ℕ, true, vec_len};
ghost use Rattle.slot_rows.specs.Marks.{is_marked, words_of};

use crate::marks::Marks;
use hyb_base::no_memory::NoMemory;
use std::alloc::Global;

/// The numbers of one slot: one for each unit from 0, or none.
#[derive(Drop)]
pub struct Row {
    numbers: Vec<i64>,
    marks: Marks,
    ghost words: { vec_len numbers < 64 * words_of marks },
    ghost within: { (u : ℕ) → is_marked marks u ≡ true → u < vec_len numbers },
}

impl Row {
    ghost use Rattle.std.specs.Prelude.{◌==◌, None, Some, IfOk, IfNone, IfSome, if◌then◌else◌};
    ghost use Rattle.slot_rows.specs.Row.{number_in, units_in};

    /// A row of so many units, without a number.
    pub fn reserve(alloc: Global, units: usize) -> Result<Row, NoMemory>
        ensures units { IfOk result (λ row. units_in row ≡ units) }
        ensures none { IfOk result (λ row. (u : ℕ) → number_in row u ≡ None) }
    {
        let numbers = Vec::from_elem(alloc, 0i64, units)?;
        let marks = Marks::reserve(alloc, units)?;
        Ok(Row { numbers, marks })
    }

    /// The number of a unit, where it has one.
    pub fn get(&self, unit: usize) -> Option<i64>
        requires { unit < units_in self.now }
        ensures { result ≡ number_in self.now unit }
    {
        if self.marks.has(unit) {
            Some(self.numbers[unit])
        } else {
            None
        }
    }

    /// Gives a unit a number. Takes no memory.
    pub fn put(&mut self, unit: usize, number: i64)
        requires { unit < units_in self.old }
        ensures numbers { (u : ℕ) → number_in self.new u ≡ (if u == unit then Some number else number_in self.old u) }
        ensures units { units_in self.new ≡ units_in self.old }
    {
        self.numbers[unit] = number;
        self.marks.add(unit);
    }

    /// Some unit that has a number, and the number, which it then has no more: none exactly where no unit has one.
    pub fn take(&mut self) -> Option<(usize, i64)>
        ensures none { IfNone result ((u : ℕ) → number_in self.old u ≡ None) }
        ensures was { IfSome result (λ p. number_in self.old p.0 ≡ Some p.1) }
        ensures within { IfSome result (λ p. p.0 < units_in self.old) }
        ensures taken { IfSome result (λ p. (u : ℕ) → number_in self.new u ≡ (if u == p.0 then None else number_in self.old u)) }
        ensures empty { IfNone result ((u : ℕ) → number_in self.new u ≡ None) }
        ensures units { units_in self.new ≡ units_in self.old }
    {
        match self.marks.take() {
            None => None,
            Some(unit) => Some((unit, self.numbers[unit])),
        }
    }

    /// Leaves no unit a number.
    pub fn clear(&mut self)
        ensures none { (u : ℕ) → number_in self.new u ≡ None }
        ensures units { units_in self.new ≡ units_in self.old }
    {
        self.marks.clear();
    }
}
