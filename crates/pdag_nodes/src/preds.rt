//! A list of predicates.
ghost use Rattle.std.specs.Prelude.{◌≡◌, ◌<◌, ◌+◌, ◌==◌, [], ◌∷◌, ◌++◌, length, slice_get, Some, IsTrue, IfOk, OnOk, OnErr};
ghost use Rattle.pdag_nodes.specs.Nodes.{OlderOnesStay};

use crate::pred::{Pred, PredId};
use hyb_base::no_memory::NoMemory;
use std::alloc::Global;
use std::marker::Model;

/// A list of predicates, each of which has its children before it.
#[derive(Drop)]
pub struct Preds {
    nodes: Vec<Pred>,
}

impl Model for Preds {
    ghost use Rattle.std.specs.Prelude.{List};
    ghost use Rattle.pdag_nodes.specs.declared.pred.Pred.{Pred};
    ghost use Rattle.pdag_nodes.specs.Nodes.{HaveEarlierChildren};
    ghost use Rattle.sym_lmad.specs.contracts.sym.Sym as s;
    ghost use Rattle.std.specs.Coded.{codes};

    ghost Value = { List Pred };

    ghost coded = { Prim.hlevel (codes, s.the_row.coded) };

    ghost view = { λ p. p.nodes.items };

    ghost invariant = { λ p. HaveEarlierChildren p.nodes.items };
}

impl Preds {
    ghost use Rattle.pdag_nodes.specs.Nodes.{children_below, ChildrenBelow, meaning_of, meaning_by};
    ghost use Rattle.std.specs.Prelude.{List, ℤ};
    ghost use Rattle.hyb_base.specs.declared.env.Env.{Env};

    /// No predicate. It takes no memory.
    pub fn new(alloc: Global) -> Preds
        ensures { result ≡ [] }
    {
        Preds {
            nodes: Vec::new(alloc),
        }
    }

    /// Adds a predicate last; its number is the length before. Its children are in the list. After an error they are as
    /// before.
    #[tactic(auto, using(crate::proofs::NodeLaws::earlier_push))]
    pub fn add(&mut self, pred: Pred) -> Result<PredId, NoMemory>
        requires { IsTrue (children_below (length self.old) pred) }
        ensures ok { OnOk result (self.new ≡ self.old ++ pred ∷ []) }
        ensures number { IfOk result (λ id. id ≡ length self.old) }
        ensures err { OnErr result (self.new ≡ self.old) }
    {
        let id = self.nodes.len();
        self.nodes.push(pred)?;
        Ok(id)
    }

    /// The number of predicates.
    pub fn len(&self) -> usize
        ensures { result ≡ length self.now }
    {
        self.nodes.len()
    }

    /// Whether there is none.
    pub fn is_empty(&self) -> bool
        ensures { result ≡ (length self.now == 0) }
    {
        self.nodes.is_empty()
    }

    /// A predicate of the list. Its children are before it, and it is by them what it is.
    #[tactic(auto, using(crate::proofs::NodeLaws::children_are, crate::proofs::NodeLaws::meaning_at))]
    pub fn node(&self, id: PredId) -> &Pred
        requires { id < length self.now }
        ensures value { slice_get self.now id ≡ Some result.now }
        ensures children { ChildrenBelow id result.now }
        ensures meaning { (values : List ℤ) (env : Env)
            → meaning_of values self.now id env ≡ meaning_by values (meaning_of values self.now) result.now env }
    {
        &self.nodes[id]
    }
}

/// Another predicate at the end keeps the truth of each older one, and the bound on what is read for it.
pub fn law_of_older_ones()
    ensures { OlderOnesStay }
{}
