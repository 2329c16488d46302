//! Programs: units of statements, and the tables of their names, storage and loops.
ghost use Rattle.std.specs.Prelude.{◌≡◌, ◌↔◌, IsTrue, IsSome, IfSome, find};
ghost use Rattle.std.specs.Option.{option_copied};
ghost use Rattle.f77_ast.specs.Loop.{has_ordinal, in_place, loop_at, has_loop, NumberedLoopsStandInPlace};

use crate::code::Code;
use crate::entities::Entities;
use crate::expr::{Expr, Kind};
use crate::name::Name;
use crate::specification::Bound;
use crate::stmt::{Label, Stmt};
use hyb_base::bytes::Bytes;
use hyb_base::list::List;
use hyb_base::nums::Nums;

/// A statement's lines, joined (ANSI X3.9-1978, section 3.2).
#[derive(Drop)]
pub struct Card {
    /// The statement label, without leading zeros.
    pub label: Option<Label>,
    /// The initial line, counted from 1.
    pub line: u32,
    /// Columns 7 to 72 of its lines, joined: outside character constants without blanks and in upper case, inside as they
    /// stand.
    pub text: Bytes,
}

/// A card, and the statement that it spells.
#[derive(Drop)]
pub struct Listed {
    /// The card.
    pub card: Card,
    /// The statement.
    pub stmt: Stmt,
}

/// The statements of a unit, in order.
pub type Listing = List<Listed>;

/// The dimensions of an array, in order; empty for what is no array.
pub type Bounds = List<Bound>;

/// Where an entity is kept.
#[derive(Drop)]
pub enum Place {
    /// In storage: its first address.
    Stored(u32),
    /// A dummy argument: its place, from 0, among the unit's dummies.
    Dummy(u32),
    /// Nowhere, a named constant: its value as a literal, an `Int` of either sign, a `Truth` or a `Chars`.
    Constant(Expr),
}

/// A variable, an array, a dummy argument, a function's result or a named constant of a unit
/// (ANSI X3.9-1978, sections 2.5 to 2.8).
#[derive(Drop)]
pub struct Entity {
    /// Its unit's number, from 0.
    pub unit: u32,
    /// Its name.
    pub name: Name,
    /// Its type.
    pub kind: Kind,
    /// Its length in storage units: 1 for INTEGER and LOGICAL, the number of characters for CHARACTER, and 0 for a
    /// length `(*)` or one that is refused.
    pub len: u32,
    /// Its dimensions. Those of a dummy argument are the trees of its declaration. Of all else both bounds of each
    /// dimension are numbers, an `Int` of either sign, the lower one 1 where none is written.
    pub bounds: Bounds,
    /// Where it is.
    pub place: Place,
}

/// A connected class of entities that overlap in storage, from its least to its greatest address.
#[derive(Clone, Copy, Debug, PartialEq, Eq)]
pub struct Region {
    /// The least address.
    pub start: u32,
    /// The number of storage units.
    pub len: u32,
}

/// Regions, by their starts. Their numbers are their places, from 0.
pub type Regions = List<Region>;

/// Where everything is in storage, and what is there before the first step.
#[derive(Drop)]
pub struct Layout {
    /// The regions.
    pub regions: Regions,
    /// The entities.
    pub entities: Entities,
    /// The number of storage units.
    pub total: u32,
    /// The number in each unit before the first step.
    pub first: Nums,
}

/// A DO loop (ANSI X3.9-1978, section 11.10).
#[derive(Clone, Copy, Debug, PartialEq, Eq)]
pub struct Loop {
    /// The initial line of its DO statement.
    pub line: u32,
    /// The number of its DO among the DO statements of the file, from 1.
    pub ordinal: u32,
    /// Its unit's number, from 0.
    pub unit: u32,
    /// The first statement of its range, counted among the statements of the file from 1.
    pub from: u32,
    /// Its terminal statement, counted likewise.
    pub last: u32,
    /// Whether it is closed, so that its iterations may be judged and run in any order: neither its range nor a unit that
    /// the range reaches by CALL or function reference, directly or through others, has a READ, PRINT, WRITE or STOP,
    /// and the range has no RETURN and no jump to a label outside it.
    pub closed: bool,
}

/// The DO loops of a file. In the order of their DO statements the loop of ordinal d is at place d - 1.
pub type Loops = List<Loop>;

/// A program unit (ANSI X3.9-1978, section 2.4).
#[derive(Drop)]
pub struct Unit {
    /// Its name, none for a main program without a PROGRAM statement.
    pub name: Option<Name>,
    /// Its statements.
    pub listing: Listing,
    /// Its code, empty until it is made.
    pub code: Code,
}

/// The units of a file, in order. Their numbers are their places, from 0.
pub type Units = List<Unit>;

/// A program.
#[derive(Drop)]
pub struct Program {
    /// Its units.
    pub units: Units,
    /// Its storage.
    pub layout: Layout,
    /// Its DO loops.
    pub loops: Loops,
}

impl Program {
    /// The DO loop of an ordinal: none exactly where no loop has it.
    ///
    /// It takes constant time where the loops are in the order of their ordinals, as those of a file that was
    /// read do; elsewhere it looks through the list.
    pub fn loop_at(&self, ordinal: u32) -> Option<&Loop>
        ensures value { option_copied result ≡ loop_at self.now.loops ordinal }
        ensures some { IsSome result ↔ IsTrue (has_loop self.now.loops ordinal) }
        ensures ordinal { IfSome result (λ loop. loop.now.ordinal ≡ ordinal) }
    {
        find_loop(self.loops.as_slice(), ordinal)
    }
}

/// The loop of an ordinal.
fn find_loop(loops: &[Loop], ordinal: u32) -> Option<&Loop>
    ensures { option_copied result ≡ loop_at loops.now ordinal }
{
    match in_place(loops, ordinal) {
        Some(found) => Some(found),
        None => first_with(loops, ordinal),
    }
}

/// The loop at the place of an ordinal, where it has it.
fn in_place(loops: &[Loop], ordinal: u32) -> Option<&Loop>
    ensures { option_copied result ≡ in_place loops.now ordinal }
{
    let place = (ordinal as usize).saturating_sub(1);
    match loops.get(place) {
        Some(candidate) if candidate.ordinal == ordinal => Some(candidate),
        _ => None,
    }
}

/// The first loop that has this ordinal.
fn first_with(loops: &[Loop], ordinal: u32) -> Option<&Loop>
    ensures { option_copied result ≡ find (has_ordinal ordinal) loops.now }
{
    loops.iter().find(|candidate| candidate.ordinal == ordinal)
}

/// A law: where the loops are numbered in order from 1, the loop of an ordinal is at the ordinal's place.
pub fn law_of_numbered_loops()
    ensures { NumberedLoopsStandInPlace }
{}
