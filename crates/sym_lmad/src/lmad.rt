//! Descriptors: a base address, and dimensions with a stride and a count.
ghost use Rattle.std.specs.Prelude.{◌≡◌, ◌↔◌, [], ◌∷◌, ◌++◌, length, slice_get, IsTrue, OnOk, OnErr};
ghost use Rattle.std.specs.Option.{option_copied};

use crate::sym::Sym;
use hyb_base::no_memory::NoMemory;
use smallvec::SmallVec;
use std::alloc::Global;
use std::marker::Model;

/// A dimension of a descriptor: the members step by `stride`, `count` times.
#[derive(Drop)]
pub struct Dim {
    /// The distance from one member to the next: of any sign, or 0.
    pub stride: i64,
    /// The number of members.
    pub count: Sym,
}

impl Default for Dim {
    /// What an unused place of a list of dimensions holds.
    fn default() -> Dim {
        Dim {
            stride: 0,
            count: Sym::Lit(0),
        }
    }
}

/// A list of dimensions, the first of which take no memory of their own.
#[derive(Drop)]
pub struct Dims {
    dims: SmallVec<Dim, 2>,
}

impl Model for Dims {
    ghost use Rattle.std.specs.Prelude.{List};
    ghost use Rattle.sym_lmad.specs.declared.lmad.Dim.{Dim};
    ghost use Rattle.sym_lmad.specs.contracts.sym.Sym as s;
    ghost use Rattle.std.specs.Coded.{codes};

    ghost Value = { List Dim };

    ghost coded = { Prim.hlevel (codes, s.the_row.coded) };

    ghost view = { λ d. d.dims.items };
}

impl Dims {
    /// No dimension. It takes no memory.
    pub fn new(alloc: Global) -> Dims
        ensures { result ≡ [] }
    {
        Dims {
            dims: SmallVec::new(alloc),
        }
    }

    /// Adds a dimension last. After an error they are as before.
    pub fn push(&mut self, dim: Dim) -> Result<(), NoMemory>
        ensures ok { OnOk result (self.new ≡ self.old ++ dim ∷ []) }
        ensures err { OnErr result (self.new ≡ self.old) }
    {
        self.dims.push(dim)?;
        Ok(())
    }

    /// The number of dimensions.
    pub fn len(&self) -> usize
        ensures { result ≡ length self.now }
    {
        self.dims.len()
    }

    /// Whether there is none.
    pub fn is_empty(&self) -> bool
        ensures { IsTrue result ↔ (self.now ≡ []) }
    {
        self.dims.is_empty()
    }

    /// The dimension at a place, counted from 0: none exactly where `place >= len`.
    pub fn get(&self, place: usize) -> Option<&Dim>
        ensures { option_copied result ≡ slice_get self.now place }
    {
        self.dims.as_slice().get(place)
    }

    /// All dimensions.
    pub fn as_slice(&self) -> &[Dim]
        ensures { result.now ≡ self.now }
    {
        self.dims.as_slice()
    }
}

/// A descriptor: the base plus, for each dimension, the stride times a number from 0 to the count less 1.
#[derive(Drop)]
pub struct Lmad {
    /// The address at which all numbers are 0.
    pub base: Sym,
    /// The dimensions.
    pub dims: Dims,
}

/// A dimension whose count has a value.
#[derive(Clone, Copy, Debug, PartialEq, Eq)]
pub struct Extent {
    /// The distance from one member to the next.
    pub stride: i64,
    /// The number of members.
    pub count: i64,
}
