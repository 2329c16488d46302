//! What the words of a line spell, read from the last word to the first.

use dep_eqs::equations::Eqs;
use std::alloc::Global;
use sym_lmad::lmad::Dim;
use sym_lmad::sym::Sym;
use usr_graph::node::{Cond, NodeId};
use usr_graph::triple::Triple;

/// Parts that no word before them has taken yet, the first of each kind last.
#[derive(Drop)]
pub struct Spelled {
    /// Numbers.
    pub numbers: Vec<i64>,
    /// Symbols.
    pub symbols: Vec<Sym>,
    /// Dimensions.
    pub dims: Vec<Dim>,
    /// Conditions.
    pub conds: Vec<Cond>,
    /// Sets.
    pub sets: Vec<NodeId>,
    /// The sets of statements.
    pub triples: Vec<Triple>,
    /// Equations.
    pub pairs: Vec<Eqs>,
}

impl Spelled {
    /// Nothing.
    pub fn new(alloc: Global) -> Spelled {
        Spelled {
            numbers: Vec::new(alloc),
            symbols: Vec::new(alloc),
            dims: Vec::new(alloc),
            conds: Vec::new(alloc),
            sets: Vec::new(alloc),
            triples: Vec::new(alloc),
            pairs: Vec::new(alloc),
        }
    }

    /// The number that comes first, as that of an entity, an index or a call site.
    pub fn name(&mut self) -> Option<u32> {
        u32::try_from(self.numbers.pop()?).ok()
    }

    /// Whether no part is left but sets, sets of statements and equations.
    fn has_no_other_part(&self) -> bool {
        self.numbers.is_empty()
            && self.symbols.is_empty()
            && self.dims.is_empty()
            && self.conds.is_empty()
    }

    /// What is asked, where nothing else is left.
    pub fn asked(&mut self) -> Option<Asked> {
        if !self.has_no_other_part() {
            return None;
        }
        let set = self.sets.pop();
        let triple = self.triples.pop();
        let pairs = self.pairs.pop();
        if !self.sets.is_empty() || !self.triples.is_empty() || !self.pairs.is_empty() {
            return None;
        }
        match (set, triple, pairs) {
            (Some(set), None, None) => Some(Asked::Set(set)),
            (None, Some(triple), None) => Some(Asked::Sets(triple)),
            (None, None, Some(pairs)) => Some(Asked::Pairs(pairs)),
            _ => None,
        }
    }
}

/// What a row asks.
#[derive(Clone, Copy)]
pub enum Asked {
    /// The members of a set.
    Set(NodeId),
    /// Those of the three sets of a statement.
    Sets(Triple),
    /// Those of the equations.
    Pairs(Eqs),
}
