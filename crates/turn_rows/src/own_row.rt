//! What one iteration has of its own.
ghost use Rattle.std.specs.Prelude.{◌≡◌, ◌<◌, ℕ, None, All, IfOk, length};
ghost use Rattle.interleaving.specs.Machine.{put};
ghost use Rattle.turn_rows.specs.CellModes.{own_of};

use hyb_base::no_memory::NoMemory;
use std::alloc::Global;

/// What one iteration has of its own: its value of each of the first cells, where it has one.
#[derive(Drop)]
pub struct OwnRow {
    /// The values.
    pub(crate) values: Vec<Option<i64>>,
}

impl OwnRow {
    /// A row of so many places, without a value of its own.
    pub fn new(alloc: Global, places: usize) -> Result<OwnRow, NoMemory>
        ensures places { IfOk result (λ row. length row.values.items ≡ places) }
        ensures clear { IfOk result (λ row. (a : ℕ) → own_of row a ≡ None) }
    {
        Ok(OwnRow {
            values: Vec::from_elem(alloc, None, places)?,
        })
    }

    /// Its own value of a cell, where it has one.
    pub fn get(&self, address: u32) -> Option<i64>
        ensures { result ≡ own_of self.now address }
    {
        match self.values.get(address as usize) {
            None => None,
            Some(own) => *own,
        }
    }

    /// Sets its own value of a cell.
    pub fn set(&mut self, address: u32, own: Option<i64>)
        requires { address < length self.old.values.items }
        ensures own { own_of self.new ≡ put (own_of self.old) address own }
        ensures places { length self.new.values.items ≡ length self.old.values.items }
    {
        self.values[address as usize] = own;
    }
}

/// So many rows of so many places, without a value of their own.
pub fn empty_rows(alloc: Global, count: u32, places: usize) -> Result<Vec<OwnRow>, NoMemory>
    ensures count { IfOk result (λ rows. length rows.items ≡ count) }
    ensures places { IfOk result (λ rows. All (λ row. length row.values.items ≡ places) rows.items) }
    ensures clear { IfOk result (λ rows. All (λ row. (a : ℕ) → own_of row a ≡ None) rows.items) }
{
    let mut rows = Vec::with_capacity(alloc, count as usize)?;
    for _made in 0..count {
        rows.push(OwnRow::new(alloc, places)?)?;
    }
    Ok(rows)
}
