//! What is told first of each name.
ghost use Rattle.std.specs.Prelude.{◌≡◌, ℕ, List, None, IfOk, OnOk, if◌then◌else◌};
ghost use Rattle.std.specs.Option.{is_some, option_copied, option_or};
ghost use Rattle.f77_uses.specs.Firsts.{told, told_of_one};

use f77_ast::name::Name;
use hyb_base::no_memory::NoMemory;
use indexmap::IndexMap;
use std::alloc::Global;

/// What is told first of each name. A name is found in constant time.
#[derive(Drop)]
pub struct Firsts<V> {
    map: IndexMap<Name, V>,
}

impl<V: Drop> Firsts<V> {
    /// Nothing is told. It takes no memory.
    pub fn new(alloc: Global) -> Firsts<V>
        ensures { (name : List ℕ) → told result name ≡ None }
    {
        Firsts {
            map: IndexMap::new(alloc),
        }
    }

    /// Whether something is told of a name.
    pub fn has(&self, name: &Name) -> bool
        ensures { result ≡ is_some (told self.now name.now) }
    {
        self.map.get(name).is_some()
    }

    /// What is told of a name.
    pub fn find(&self, name: &Name) -> Option<&V>
        ensures { option_copied result ≡ told self.now name.now }
    {
        self.map.get(name)
    }

    /// Tells of a name, unless something is told of it; whether something is.
    pub fn note(&mut self, name: Name, value: V) -> Result<bool, NoMemory>
        ensures again { IfOk result (λ again. again ≡ is_some (told self.old name)) }
        ensures noted { OnOk result ((other : List ℕ) → told self.new other ≡ option_or (told self.old other) (told_of_one name value other)) }
    {
        if self.has(&name) {
            return Ok(true);
        }
        self.map.insert(name, value)?;
        Ok(false)
    }
}
