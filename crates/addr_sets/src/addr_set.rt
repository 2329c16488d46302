//! The set, over the ordered set of std.
ghost use Rattle.std.specs.Prelude.{◌≡◌, ℕ, ◌≤◌, ◌==◌, ◌&&◌, ◌||◌, not, true, false, IfOk, OnOk, OnErr, MatchOption};
ghost use Rattle.addr_sets.specs.Members.{has, IsLeastFrom};

use hyb_base::no_memory::NoMemory;
use std::alloc::Global;
use std::collections::BTreeSet;
use std::marker::Model;

/// A set of addresses.
#[derive(Drop)]
pub struct AddrSet {
    members: BTreeSet<u32>,
}

impl Model for AddrSet {
    ghost use Rattle.std.specs.FinSet as set;
    ghost use Rattle.std.specs.Coded.{coded_ℕ};
    ghost use Rattle.addr_sets.specs.Members.{Addresses};

    ghost Value = { Addresses };

    ghost coded = { set.code coded_ℕ };

    ghost view = { λ a. set.from_list a.members.keys };
}

impl AddrSet {
    /// The empty set. It takes no memory.
    pub fn new(alloc: Global) -> AddrSet
        ensures { (a : ℕ) → has result a ≡ false }
    {
        AddrSet {
            members: BTreeSet::new(alloc),
        }
    }

    /// Adds an address, in time logarithmic in the number of members. After an error the set is as before.
    pub fn insert(&mut self, address: u32) -> Result<(), NoMemory>
        ensures ok { OnOk result ((a : ℕ) → has self.new a ≡ (a == address || has self.old a)) }
        ensures err { OnErr result (self.new ≡ self.old) }
    {
        self.members.insert(address)?;
        Ok(())
    }

    /// Whether an address is a member, in time logarithmic in the number of members.
    pub fn contains(&self, address: u32) -> bool
        ensures { result ≡ has self.now address }
    {
        self.members.contains(&address)
    }

    /// The least member, in time logarithmic in the number of members: none exactly where the set is empty.
    pub fn least(&self) -> Option<u32>
        ensures { MatchOption result ((a : ℕ) → has self.now a ≡ false) (IsLeastFrom self.now 0) }
    {
        match self.members.first() {
            None => None,
            Some(member) => Some(*member),
        }
    }

    /// The least member that isn't below `address`, in time logarithmic in the number of members: none exactly where
    /// each member is below it.
    pub fn least_from(&self, address: u32) -> Option<u32>
        ensures { MatchOption result ((a : ℕ) → address ≤ a → has self.now a ≡ false) (IsLeastFrom self.now address) }
    {
        match self.members.range(address..).next() {
            None => None,
            Some(member) => Some(*member),
        }
    }

    /// The addresses that are in one of the two sets or in both, in one pass over both and a sort.
    pub fn union(&self, alloc: Global, other: &AddrSet) -> Result<AddrSet, NoMemory>
        ensures { IfOk result (λ u. (a : ℕ) → has u a ≡ (has self.now a || has other.now a)) }
    {
        let all = self.members.union(&other.members);
        let members = all.copied().collect(alloc)?;
        Ok(AddrSet { members })
    }

    /// The addresses that are in both sets, in one pass over both and a sort.
    pub fn inter(&self, alloc: Global, other: &AddrSet) -> Result<AddrSet, NoMemory>
        ensures { IfOk result (λ u. (a : ℕ) → has u a ≡ (has self.now a && has other.now a)) }
    {
        let shared = self.members.intersection(&other.members);
        let members = shared.copied().collect(alloc)?;
        Ok(AddrSet { members })
    }

    /// The addresses that are in this set and not in the other, in one pass over both and a sort.
    pub fn minus(&self, alloc: Global, other: &AddrSet) -> Result<AddrSet, NoMemory>
        ensures { IfOk result (λ u. (a : ℕ) → has u a ≡ (has self.now a && not (has other.now a))) }
    {
        let kept = self.members.difference(&other.members);
        let members = kept.copied().collect(alloc)?;
        Ok(AddrSet { members })
    }
}
