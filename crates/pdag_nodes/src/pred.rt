//! The nodes of predicates.

use hyb_base::nums::Nums;
use sym_lmad::sym::Sym;

/// The number of a predicate in its list, counted from 0.
pub type PredId = usize;

/// A predicate over bindings and storage. Its children are earlier ones of the same list.
#[derive(Drop)]
pub enum Pred {
    /// True.
    True,
    /// False.
    False,
    /// Both symbols have values, and the first is at most the second.
    Le(Sym, Sym),
    /// Both symbols have values, and these differ.
    Ne(Sym, Sym),
    /// Both hold. The second is asked only where the first holds.
    And(PredId, PredId),
    /// One of the two holds. The second is asked only where the first doesn't.
    Or(PredId, PredId),
    /// The count has a value, and the body holds for each value of the index from 1 to it.
    Every {
        /// The index that is bound.
        index: u32,
        /// The greatest value of the index.
        count: Sym,
        /// The predicate that is to hold for each.
        body: PredId,
    },
    /// The count has a value, both ends of a window have one at each value of the index from 1 to it, and the windows
    /// that aren't empty follow each other without touching.
    Ascending {
        /// The index that is bound.
        index: u32,
        /// The greatest value of the index.
        count: Sym,
        /// The first number of a window.
        low: Sym,
        /// The last number of a window: one below `low` leaves it empty.
        high: Sym,
        /// Whether each window is above those before it; else it is below them.
        rising: bool,
    },
    /// No region of a read entity is the region of a written one.
    Stable {
        /// The entities that are read.
        reads: Nums,
        /// The entities that are written.
        writes: Nums,
    },
}
