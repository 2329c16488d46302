//! A growing list of 64-bit numbers.
ghost use Rattle.std.specs.Prelude.{◌≡◌, ◌<◌, ◌↔◌, [], ◌∷◌, ◌++◌, length, slice_get, slice_set, IfOk, IsTrue, OnOk, OnErr};

use crate::no_memory::NoMemory;
use std::alloc::Global;
use std::marker::Model;

/// A list of numbers.
#[derive(Drop)]
pub struct Nums {
    nums: Vec<i64>,
}

impl Model for Nums {
    ghost use Rattle.std.specs.Prelude.{List, ℤ};

    ghost Value = { List ℤ };

    ghost view = { λ n. n.nums.items };
}

impl Nums {
    /// The empty list. It takes no memory.
    pub fn new(alloc: Global) -> Nums
        ensures { result ≡ [] }
    {
        Nums {
            nums: Vec::new(alloc),
        }
    }

    /// The empty list, with room for `room` numbers.
    pub fn with_capacity(alloc: Global, room: usize) -> Result<Nums, NoMemory>
        ensures { IfOk result (λ n. n ≡ []) }
    {
        Ok(Nums {
            nums: Vec::with_capacity(alloc, room)?,
        })
    }

    /// The list of a vector's numbers. It takes no memory.
    pub fn from_vec(nums: Vec<i64>) -> Nums
        ensures { result ≡ nums.items }
    {
        Nums { nums }
    }

    /// The numbers as a vector. It takes no memory.
    pub fn into_vec(self) -> Vec<i64>
        ensures { result.items ≡ self }
    {
        self.nums
    }

    /// Adds a number last. After an error the list is as before.
    pub fn push(&mut self, item: i64) -> Result<(), NoMemory>
        ensures ok { OnOk result (self.new ≡ self.old ++ item ∷ []) }
        ensures err { OnErr result (self.new ≡ self.old) }
    {
        self.nums.push(item)?;
        Ok(())
    }

    /// The number of numbers.
    pub fn len(&self) -> usize
        ensures { result ≡ length self.now }
    {
        self.nums.len()
    }

    /// Whether it has no number.
    pub fn is_empty(&self) -> bool
        ensures { IsTrue result ↔ (self.now ≡ []) }
    {
        self.nums.is_empty()
    }

    /// The number at a place, counted from 0: none exactly where `place >= len`.
    pub fn get(&self, place: usize) -> Option<i64>
        ensures { result ≡ slice_get self.now place }
    {
        self.nums.get(place).copied()
    }

    /// Replaces the number at a place.
    pub fn set(&mut self, place: usize, value: i64)
        requires { place < length self.old }
        ensures { self.new ≡ slice_set self.old place value }
    {
        self.nums[place] = value;
    }

    /// All numbers.
    pub fn as_slice(&self) -> &[i64]
        ensures { result.now ≡ self.now }
    {
        self.nums.as_slice()
    }
}
