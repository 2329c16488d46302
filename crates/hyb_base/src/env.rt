//! What the names of a program mean at one moment of a run.

use crate::list::List;
use crate::nums::Nums;

/// What an entity is bound to.
#[derive(Clone, Copy, Debug, PartialEq, Eq)]
pub enum Base {
    /// The address of its first storage unit.
    At(u32),
    /// A value: of a dummy that is bound to one, and 0 for an entity without storage units.
    Value(i64),
}

/// A list of what entities are bound to.
pub type Bases = List<Base>;

/// The bindings of a program's entities, and the numbers that symbolic terms name by their index.
#[derive(Drop)]
pub struct Env {
    /// What each entity is bound to: one place per entity.
    pub bases: Bases,
    /// The region of each entity, or -1 where it has none: one place per entity.
    pub regions: Nums,
    /// The start and the length of each region in turn, in storage units: two places per region.
    pub spans: Nums,
    /// The values of the indices. The first three are the count, the first value and the increment
    /// of the loop that is looked at; index 3 is the number of its iteration, counted from 1.
    pub indices: Nums,
}
