//! The tables of a file, a line ended by LF for each of their members: cards, units, loops, entities.

use crate::declarations::show_bounds;
use crate::exprs::show_expr;
use crate::lists::{show_count, show_field};
use f77_ast::expr::Kind;
use f77_ast::name::Name;
use f77_ast::program::{Card, Entity, Layout, Loop, Place, Region, Unit};
use hyb_base::bytes::Bytes;
use hyb_base::no_memory::NoMemory;

/// Shows a blank and a number that may be missing: ` 10`, or ` -` where it is.
fn show_optional(number: Option<u32>, into: &mut Bytes) -> Result<(), NoMemory> {
    match number {
        Some(number) => show_field(number, into),
        None => into.push_slice(b" -".as_slice()),
    }
}

/// Shows a blank and a name that may be missing: ` P`, or ` -` where it is.
fn show_name(name: &Option<Name>, into: &mut Bytes) -> Result<(), NoMemory> {
    into.push(b' ')?;
    match name {
        Some(name) => into.push_slice(name.as_slice()),
        None => into.push(b'-'),
    }
}

/// Shows a card as a line: `card`, its initial line, its label or `-`, and its text, as in `card 1 10 A=1` and
/// `card 2 - END`.
pub fn show_card(card: &Card, into: &mut Bytes) -> Result<(), NoMemory> {
    into.push_slice(b"card".as_slice())?;
    show_field(card.line, into)?;
    show_optional(card.label, into)?;
    into.push(b' ')?;
    into.push_slice(card.text.as_slice())?;
    into.push(b'\n')
}

/// Shows a unit as a line: `unit`, its name or `-`, and the number of its statements, as in `unit S 4` and `unit - 2`.
pub fn show_unit(unit: &Unit, into: &mut Bytes) -> Result<(), NoMemory> {
    into.push_slice(b"unit".as_slice())?;
    show_name(&unit.name, into)?;
    show_count(unit.listing.len(), into)?;
    into.push(b'\n')
}

/// Shows a loop as a line: `loop`, the line of its DO statement, its ordinal, its unit, the first and the last statement
/// of its range, and `closed` or `open`, as in `loop 2 1 0 3 5 closed`.
pub fn show_loop(one: &Loop, into: &mut Bytes) -> Result<(), NoMemory> {
    into.push_slice(b"loop".as_slice())?;
    show_field(one.line, into)?;
    show_field(one.ordinal, into)?;
    show_field(one.unit, into)?;
    show_field(one.from, into)?;
    show_field(one.last, into)?;
    into.push_slice(if one.closed {
        b" closed\n".as_slice()
    } else {
        b" open\n".as_slice()
    })
}

/// The number of addresses of a region: none where it doesn't start at this address.
fn length_from(region: Option<&Region>, address: u32) -> Option<u32> {
    match region {
        Some(region) if region.start == address => Some(region.len),
        Some(_region) => None,
        None => None,
    }
}

/// Shows an entity as a line: `entity`, its name, and where it is.
///
/// In storage that is its first address and the number of its addresses, which is that of its region, or `-` where the
/// region starts elsewhere: `entity A 0 3`. For a dummy argument it is its place among the unit's dummies:
/// `entity X dummy 1`. For a named constant it is the value: `entity N constant 5`.
pub fn show_entity(
    entity: &Entity,
    region: Option<&Region>,
    into: &mut Bytes,
) -> Result<(), NoMemory> {
    into.push_slice(b"entity ".as_slice())?;
    into.push_slice(entity.name.as_slice())?;
    match &entity.place {
        Place::Stored(address) => {
            show_field(*address, into)?;
            show_optional(length_from(region, *address), into)?;
        }
        Place::Dummy(place) => {
            into.push_slice(b" dummy".as_slice())?;
            show_field(*place, into)?;
        }
        Place::Constant(value) => {
            into.push_slice(b" constant ".as_slice())?;
            show_expr(value, into)?;
        }
    }
    into.push(b'\n')
}

/// The word for a kind.
fn kind_word(kind: Kind) -> &'static [u8] {
    match kind {
        Kind::Integer => b"integer".as_slice(),
        Kind::Logical => b"logical".as_slice(),
        Kind::Character => b"character".as_slice(),
    }
}

/// Shows where an entity is kept, after a blank: ` stored`, ` dummy 1` or ` constant 5`.
fn show_place(place: &Place, into: &mut Bytes) -> Result<(), NoMemory> {
    match place {
        Place::Stored(_) => into.push_slice(b" stored".as_slice()),
        Place::Dummy(number) => {
            into.push_slice(b" dummy".as_slice())?;
            show_field(*number, into)
        }
        Place::Constant(value) => {
            into.push_slice(b" constant ".as_slice())?;
            show_expr(value, into)
        }
    }
}

/// Shows an entity as it is before it has an address, as a line: `entity`, its unit, its name with its dimensions, its kind, its
/// length, and where it is kept, as in `entity 0 A(1:3) integer 1 stored`.
pub fn show_resolved(entity: &Entity, into: &mut Bytes) -> Result<(), NoMemory> {
    into.push_slice(b"entity".as_slice())?;
    show_field(entity.unit, into)?;
    into.push(b' ')?;
    into.push_slice(entity.name.as_slice())?;
    show_bounds(entity.bounds.as_slice(), into)?;
    into.push(b' ')?;
    into.push_slice(kind_word(entity.kind))?;
    show_field(entity.len, into)?;
    show_place(&entity.place, into)?;
    into.push(b'\n')
}

/// Shows a word and a number as a line.
fn show_total(word: &[u8], number: usize, into: &mut Bytes) -> Result<(), NoMemory> {
    into.push_slice(word)?;
    show_count(number, into)?;
    into.push(b'\n')
}

/// How many regions an entity has of its own: one where it is stored.
fn regions_of(entity: &Entity) -> usize {
    match entity.place {
        Place::Stored(_) => 1,
        Place::Dummy(_) => 0,
        Place::Constant(_) => 0,
    }
}

/// Shows the entities of a layout, each stored one with the next region; their number.
fn show_entities(layout: &Layout, into: &mut Bytes) -> Result<usize, NoMemory> {
    let regions = layout.regions.as_slice();
    let mut stored: usize = 0;
    for place in 0..layout.entities.len() {
        if let Some(entity) = layout.entities.get(place) {
            show_entity(entity, regions.get(stored), into)?;
            stored = stored.saturating_add(regions_of(entity));
        }
    }
    Ok(stored)
}

/// Shows a layout: the line of each entity, each stored one with the next region, and then `total 7`, the number of addresses.
///
/// Where the regions aren't as many as the stored entities, a line `regions 3` follows, and where the opening values aren't as
/// many as the addresses, a line `values 3`.
pub fn show_layout(layout: &Layout, into: &mut Bytes) -> Result<(), NoMemory> {
    let stored = show_entities(layout, into)?;
    let total = layout.total as usize;
    show_total(b"total".as_slice(), total, into)?;
    if layout.regions.len() != stored {
        show_total(b"regions".as_slice(), layout.regions.len(), into)?;
    }
    if layout.first.len() != total {
        show_total(b"values".as_slice(), layout.first.len(), into)?;
    }
    Ok(())
}
