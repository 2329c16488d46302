//! The calls of the front end, one after another, up to the one whose result is shown.
ghost use Rattle.std.specs.Prelude.{◌+◌, ◌^◌, ◌<◌, IsTrue};
ghost use Rattle.f77_structure.specs.Units.{statement_count};

use f77_ast::entities::Entities;
use f77_ast::program::{Layout, Listed, Listing, Loops, Units};
use f77_ast::refusal::{FrontError, Refusal};
use f77_built::built::first_unbuilt;
use f77_cards::cards::{Cards, cards};
use f77_due::lacking::constants_break;
use f77_kinds::kinds_break::kinds_break;
use f77_layout::layout::layout_of as layout_with;
use f77_loops::loops::loops;
use f77_names::entities::entities_of;
use f77_names::resolve::resolve;
use f77_operands::limit::too_many_operands;
use f77_shape::shape::shape;
use f77_stmts::stmt::stmt;
use f77_uses::names::names_break;
use hyb_base::no_memory::NoMemory;
use std::alloc::Global;

/// The most bytes that a source may have: that of a file that `hybrid` reads.
const MOST_BYTES: usize = 1_048_576;

/// The most units, and the most statements in any of them, that are counted.
const MOST_COUNTED: usize = 20_000;

/// Why a source makes nothing.
#[derive(Clone, Copy)]
pub enum Unmade {
    /// A call refuses it.
    Refused(Refusal),
    /// It is larger than any file that `hybrid` reads.
    TooLarge,
    /// Memory failed.
    NoMemory,
}

impl From<FrontError> for Unmade {
    fn from(error: FrontError) -> Unmade {
        match error {
            FrontError::Refused(refusal) => Unmade::Refused(refusal),
            FrontError::NoMemory => Unmade::NoMemory,
        }
    }
}

impl From<NoMemory> for Unmade {
    fn from(_error: NoMemory) -> Unmade {
        Unmade::NoMemory
    }
}

/// The cards of a source.
pub fn cards_of(alloc: Global, source: &[u8]) -> Result<Cards, Unmade> {
    if source.len() > MOST_BYTES {
        return Err(Unmade::TooLarge);
    }
    Ok(cards(alloc, source)?)
}

/// The units of a source.
pub fn units_of(alloc: Global, source: &[u8]) -> Result<Units, Unmade> {
    let mut statements = Listing::new(alloc);
    for card in cards_of(alloc, source)?.into_vec() {
        let spelled = stmt(alloc, &card)?;
        statements.push(Listed {
            card,
            stmt: spelled,
        })?;
    }
    Ok(shape(alloc, statements)?)
}

/// The units of a source, within the limit on operands.
pub fn fitting_units_of(alloc: Global, source: &[u8]) -> Result<Units, Unmade> {
    let units = units_of(alloc, source)?;
    unless_refused(too_many_operands(alloc, units.as_slice())?)?;
    Ok(units)
}

/// Whether the statements of units can be counted, as they can where the shape of their file isn't refused.
fn are_countable(units: &Units) -> bool
    ensures { IsTrue result → statement_count units.now + 1 < 2 ^ 32 }
{
    let all = units.as_slice();
    let mut count: usize = 0;
    for unit in all {
        if count > MOST_COUNTED || unit.listing.len() > MOST_COUNTED {
            return false;
        }
        count += unit.listing.len();
    }
    true
}

/// The loops of units.
fn loops_in(alloc: Global, units: &Units) -> Result<Loops, Unmade> {
    if units.len() > MOST_COUNTED || !are_countable(units) {
        return Err(Unmade::TooLarge);
    }
    Ok(loops(alloc, units)?)
}

/// The loops of a source.
pub fn loops_of(alloc: Global, source: &[u8]) -> Result<Loops, Unmade> {
    let units = fitting_units_of(alloc, source)?;
    loops_in(alloc, &units)
}

/// The first statement of a source in which a constant is due, and there is none.
pub fn due_of(alloc: Global, source: &[u8]) -> Result<(), Unmade> {
    let units = units_of(alloc, source)?;
    unless_refused(constants_break(alloc, units.as_slice())?)
}

/// The entities of a source.
pub fn entities_in(alloc: Global, source: &[u8]) -> Result<Entities, Unmade> {
    let units = units_of(alloc, source)?;
    if units.len() > MOST_COUNTED {
        return Err(Unmade::TooLarge);
    }
    Ok(entities_of(alloc, units.as_slice())?)
}

/// The entities of a source that keeps all rules on names.
pub fn resolved_in(alloc: Global, source: &[u8]) -> Result<Entities, Unmade> {
    let units = units_of(alloc, source)?;
    if units.len() > MOST_COUNTED {
        return Err(Unmade::TooLarge);
    }
    Ok(resolve(alloc, units.as_slice())?)
}

/// The first refusal of a source by the rules on declarations and uses of names.
pub fn uses_of(alloc: Global, source: &[u8]) -> Result<(), Unmade> {
    let units = units_of(alloc, source)?;
    unless_refused(names_break(alloc, units.as_slice())?)
}

/// The first refusal of a source by the rules on kinds, and on numbers of subscripts and arguments.
pub fn kinds_of(alloc: Global, source: &[u8]) -> Result<(), Unmade> {
    let units = units_of(alloc, source)?;
    unless_refused(kinds_break(alloc, units.as_slice())?)
}

/// Nothing, unless there is a refusal.
fn unless_refused(refusal: Option<Refusal>) -> Result<(), Unmade> {
    match refusal {
        None => Ok(()),
        Some(refusal) => Err(Unmade::Refused(refusal)),
    }
}

/// The layout of a source that keeps all rules on names, within the limit on operands, and of which all is built.
pub fn layout_of(alloc: Global, source: &[u8]) -> Result<Layout, Unmade> {
    let units = units_of(alloc, source)?;
    if units.len() > MOST_COUNTED {
        return Err(Unmade::TooLarge);
    }
    let entities = resolve(alloc, units.as_slice())?;
    unless_refused(too_many_operands(alloc, units.as_slice())?)?;
    unless_refused(first_unbuilt(alloc, units.as_slice(), &entities)?)?;
    match layout_with(alloc, entities)? {
        None => Err(Unmade::TooLarge),
        Some(layout) => Ok(layout),
    }
}
