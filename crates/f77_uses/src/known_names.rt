//! What the declarations of a unit say of its names.
ghost use Rattle.std.specs.Prelude.{◌≡◌, ◌||◌, ℕ, List, Some, false, IfOk, OnOk, unwrap_or, if◌then◌else◌};
ghost use Rattle.std.specs.Option.{is_some, option_copied, option_or};
ghost use Rattle.f77_leaves.specs.Declarations as spec;
ghost use Rattle.f77_leaves.specs.Meant.{meant_by};
ghost use Rattle.f77_uses.specs.Breaks.{is_second, has_second};
ghost use Rattle.f77_uses.specs.Tables.{known_in};

use crate::facts::Facts;
use crate::meaning::{kind_in, meant_by, undeclared};
use f77_ast::expr::Kind;
use f77_ast::name::Name;
use f77_ast::program::Bounds;
use f77_leaves::declarations::{Declared, Fact, Known};
use f77_leaves::intrinsics::intrinsic_named;
use f77_leaves::meant::Meant;
use hyb_base::no_memory::NoMemory;
use indexmap::IndexMap;
use std::alloc::Global;

/// Nothing is known of a name.
fn unknown() -> Known
    ensures { result ≡ spec.unknown }
{
    Known {
        typing: None,
        bounds: None,
        value: None,
        dummy: None,
        common: false,
        heading: false,
        result: false,
    }
}

/// The first of what is known and of what comes now.
fn first<T: Drop>(before: Option<T>, now: T) -> Option<T>
    ensures { result ≡ option_or before (Some now) }
{
    match before {
        None => Some(now),
        Some(before) => Some(before),
    }
}

/// What is known with one fact more.
fn join(mut known: Known, fact: Fact) -> Known
    ensures { result ≡ spec.joined known fact }
{
    match fact {
        Fact::Typed(typing) => known.typing = first(known.typing, typing),
        Fact::Bounded(bounds) => known.bounds = first(known.bounds, bounds),
        Fact::Common => known.common = true,
        Fact::Valued(value) => known.value = first(known.value, value),
        Fact::Dummy(place) => known.dummy = first(known.dummy, place),
        Fact::Heading => known.heading = true,
        Fact::Result => known.result = true,
    }
    known
}

/// Whether there is a fact of the sort already; a result takes no bounds, and is no dummy argument.
fn is_second(known: &Known, fact: &Fact) -> bool
    ensures { result ≡ is_second known.now fact.now }
{
    match fact {
        Fact::Typed(_) => known.typing.is_some(),
        Fact::Bounded(_) => known.bounds.is_some() || known.result,
        Fact::Common => known.common,
        Fact::Valued(_) => known.value.is_some(),
        Fact::Dummy(_) => known.dummy.is_some() || known.result,
        Fact::Heading => false,
        Fact::Result => false,
    }
}

/// Whether one of two facts holds. A function of its own, since the join after `||` loses facts in a loop.
fn either(one: bool, other: bool) -> bool
    ensures { result ≡ (one || other) }
{
    one || other
}

/// What the declarations of a unit by now say of its names. A name is found in constant time.
#[derive(Drop)]
pub struct KnownNames {
    map: IndexMap<Name, Known>,
}

impl KnownNames {
    /// Nothing is known of any name. It takes no memory.
    pub fn new(alloc: Global) -> KnownNames
        ensures { (name : List ℕ) → known_in result name ≡ spec.unknown }
    {
        KnownNames {
            map: IndexMap::new(alloc),
        }
    }

    /// Takes what is known of a name out of the table.
    fn take(&mut self, name: &Name) -> Known
        ensures value { result ≡ known_in self.old name.now }
        ensures others { (other : List ℕ) → spec.same_name other name.now ≡ false → known_in self.new other ≡ known_in self.old other }
    {
        match self.map.swap_remove(name) {
            None => unknown(),
            Some(known) => known,
        }
    }

    /// Sets what is known of a name.
    fn put(&mut self, name: Name, known: Known) -> Result<(), NoMemory>
        ensures { OnOk result ((other : List ℕ) → known_in self.new other ≡ (if spec.same_name other name then known else known_in self.old other)) }
    {
        self.map.insert(name, known)?;
        Ok(())
    }

    /// Takes a declaration, and tells whether it is a second one of its sort.
    fn note(&mut self, declared: Declared) -> Result<bool, NoMemory>
        ensures again { IfOk result (λ again. again ≡ is_second (known_in self.old declared.name) declared.fact) }
        ensures noted { OnOk result ((other : List ℕ) → known_in self.new other ≡ spec.told other (known_in self.old other) declared) }
    {
        let Declared { name, fact } = declared;
        let before = self.take(&name);
        let again = is_second(&before, &fact);
        self.put(name, join(before, fact))?;
        Ok(again)
    }

    /// Takes the declarations of a statement, and tells whether one is a second one of its sort.
    pub fn note_all(&mut self, facts: Facts) -> Result<bool, NoMemory>
        ensures again { IfOk result (λ again. again ≡ has_second (known_in self.old) facts) }
        ensures noted { OnOk result ((other : List ℕ) → known_in self.new other ≡ spec.known_from other (known_in self.old other) facts) }
    {
        let mut again = false;
        for declared in facts.into_vec() {
            let second = self.note(declared)?;
            again = either(again, second);
        }
        Ok(again)
    }

    /// What is known of a name: none where nothing is.
    pub fn find(&self, name: &Name) -> Option<&Known>
        ensures { unwrap_or (option_copied result) spec.unknown ≡ known_in self.now name.now }
    {
        self.map.get(name)
    }

    /// Whether a name has bounds.
    pub fn has_bounds(&self, name: &Name) -> bool
        ensures { result ≡ is_some (known_in self.now name.now).bounds }
    {
        match self.map.get(name) {
            None => false,
            Some(known) => known.bounds.is_some(),
        }
    }

    /// Whether a name is a constant's.
    pub fn has_value(&self, name: &Name) -> bool
        ensures { result ≡ is_some (known_in self.now name.now).value }
    {
        match self.map.get(name) {
            None => false,
            Some(known) => known.value.is_some(),
        }
    }

    /// Whether a name is that of the main program or subroutine.
    pub fn is_heading(&self, name: &Name) -> bool
        ensures { result ≡ (known_in self.now name.now).heading }
    {
        match self.map.get(name) {
            None => false,
            Some(known) => known.heading,
        }
    }

    /// The kind that a type statement or FUNCTION gives a name.
    pub fn typed_kind(&self, name: &Name) -> Option<Kind>
        ensures { result ≡ spec.kind_in (known_in self.now name.now).typing }
    {
        match self.map.get(name) {
            None => None,
            Some(known) => kind_in(&known.typing),
        }
    }

    /// What a name with a list is.
    pub fn meant(&self, name: &Name) -> Meant
        ensures { result ≡ meant_by (known_in self.now name.now) name.now }
    {
        match self.map.get(name) {
            None => undeclared(intrinsic_named(name.as_slice())),
            Some(known) => meant_by(known, name),
        }
    }

    /// The bounds of a name.
    pub fn bounds(&self, name: &Name) -> Option<&Bounds>
        ensures { option_copied result ≡ (known_in self.now name.now).bounds }
    {
        match self.map.get(name) {
            None => None,
            Some(known) => known.bounds.as_ref(),
        }
    }

    /// Whether a name is a dummy argument's.
    pub fn is_dummy(&self, name: &Name) -> bool
        ensures { result ≡ is_some (known_in self.now name.now).dummy }
    {
        match self.map.get(name) {
            None => false,
            Some(known) => known.dummy.is_some(),
        }
    }

    /// Whether a name is a member of COMMON.
    pub fn is_common(&self, name: &Name) -> bool
        ensures { result ≡ (known_in self.now name.now).common }
    {
        match self.map.get(name) {
            None => false,
            Some(known) => known.common,
        }
    }
}
