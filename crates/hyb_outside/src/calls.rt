//! Calls that are to fail, by their numbers.
ghost use Rattle.std.specs.Prelude.{◌≡◌, [], ◌∷◌, ◌++◌, ◌↔◌, IsTrue, OnOk, OnErr};
ghost use Rattle.hyb_base.specs.Count.{next_count};
ghost use Rattle.hyb_outside.specs.Calls.{CallsMade, IsListed};

use hyb_base::no_memory::NoMemory;
use std::alloc::Global;
use std::marker::Model;

/// The numbers of the calls that are to fail, counted from 1, and how many calls were made.
#[derive(Drop)]
pub struct Calls {
    fails: Vec<u64>,
    made: u64,
}

impl Model for Calls {
    ghost use Rattle.hyb_outside.specs.Calls.{CallsMade};

    ghost Value = { CallsMade };

    ghost view = { λ c. record { fails = c.fails.items; calls = c.made } };
}

impl Calls {
    /// No call was made, and none is to fail. It takes no memory.
    pub fn new(alloc: Global) -> Calls
        ensures { result ≡ record { fails = []; calls = 0 } }
    {
        Calls {
            fails: Vec::new(alloc),
            made: 0,
        }
    }

    /// Lists a call that is to fail. After an error the list is as before.
    pub fn list(&mut self, call: u64) -> Result<(), NoMemory>
        ensures ok { OnOk result (self.new ≡ record self.old { fails = self.old.fails ++ call ∷ [] }) }
        ensures err { OnErr result (self.new ≡ self.old) }
    {
        self.fails.push(call)?;
        Ok(())
    }

    /// Counts one call more, and says whether it is to fail.
    pub fn make(&mut self) -> bool
        ensures made { self.new ≡ record self.old { calls = next_count self.old.calls } }
        ensures listed { IsTrue result ↔ IsListed self.old.fails self.old.calls }
    {
        self.made = self.made.saturating_add(1);
        self.fails.contains(&self.made)
    }
}
