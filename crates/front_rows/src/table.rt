//! What is shown of the cases of a file.

use crate::case::Case;
use crate::same::show_same;
use crate::stages::{
    Unmade, cards_of, due_of, entities_in, fitting_units_of, kinds_of, layout_of, loops_of,
    resolved_in, units_of, uses_of,
};
use crate::texts::{show_expr_of, show_need_of, show_stmt_of};
use f77_shown::refusals::show_refusal;
use f77_shown::tables::{show_card, show_layout, show_loop, show_resolved, show_unit};
use hyb_base::bytes::Bytes;
use hyb_base::no_memory::NoMemory;
use std::alloc::Global;

/// What is shown of the cases of a file, by the file's name.
#[derive(Clone, Copy)]
pub enum Table {
    /// The cards of a source.
    Cards,
    /// The expression of a text.
    Exprs,
    /// Which of the expressions of the lines of a source are the same tree.
    Trees,
    /// The statement of a text.
    Statements,
    /// The units of a source.
    Shape,
    /// The operands of the statement of a text, where a number of them is wanted, and else whether a source is within the
    /// limit on operands.
    Operands,
    /// The loops of a source.
    Loops,
    /// The places in storage of the names of a source.
    Layout,
    /// Whether a source has constants where they are due.
    Constants,
    /// The entities of a source.
    Entities,
    /// Whether a source keeps all rules on names.
    Names,
    /// Whether a source keeps the rules on declarations and uses of names.
    Uses,
    /// Whether a source keeps the rules on kinds, and on numbers of subscripts and arguments.
    Kinds,
}

impl Table {
    /// The table of a file, by its name without the folders before it: none where no table has this name.
    pub fn of(path: &str) -> Option<Table> {
        match path.rsplit('/').next()? {
            "cards.rows" => Some(Table::Cards),
            "exprs.rows" => Some(Table::Exprs),
            "trees.rows" => Some(Table::Trees),
            "statements.rows" => Some(Table::Statements),
            "shape.rows" => Some(Table::Shape),
            "operands.rows" => Some(Table::Operands),
            "loops.rows" => Some(Table::Loops),
            "layout.rows" => Some(Table::Layout),
            "constants.rows" => Some(Table::Constants),
            "entities.rows" => Some(Table::Entities),
            "names.rows" => Some(Table::Names),
            "uses.rows" => Some(Table::Uses),
            "kinds.rows" => Some(Table::Kinds),
            _ => None,
        }
    }

    /// Whether the source of a case is one text, as a card holds it, and no file.
    pub fn has_text(self, case: &Case) -> bool {
        match self {
            Table::Exprs | Table::Statements => true,
            Table::Operands => case.wanted.starts_with(b"need "),
            Table::Cards
            | Table::Trees
            | Table::Shape
            | Table::Loops
            | Table::Layout
            | Table::Constants
            | Table::Entities
            | Table::Names
            | Table::Uses
            | Table::Kinds => false,
        }
    }

    /// Shows what a text makes.
    fn show_text(self, alloc: Global, text: &[u8], into: &mut Bytes) -> Result<(), NoMemory> {
        match self {
            Table::Exprs => show_expr_of(alloc, text, into)?,
            Table::Operands => show_need_of(alloc, text, into)?,
            Table::Cards
            | Table::Trees
            | Table::Statements
            | Table::Shape
            | Table::Loops
            | Table::Layout
            | Table::Constants
            | Table::Entities
            | Table::Names
            | Table::Uses
            | Table::Kinds => show_stmt_of(alloc, text, into)?,
        }
        into.push(b'\n')
    }

    /// Shows what a file makes.
    fn show_file(self, alloc: Global, source: &[u8], into: &mut Bytes) -> Result<(), Unmade> {
        match self {
            Table::Cards => show_cards(alloc, source, into),
            Table::Trees => show_trees(alloc, source, into),
            Table::Shape => show_shape(alloc, source, into),
            Table::Loops => show_loops(alloc, source, into),
            Table::Layout => show_places(alloc, source, into),
            Table::Constants => show_due(alloc, source, into),
            Table::Entities => show_entities(alloc, source, into),
            Table::Names => show_names(alloc, source, into),
            Table::Uses => show_uses(alloc, source, into),
            Table::Kinds => show_kinds(alloc, source, into),
            Table::Operands | Table::Exprs | Table::Statements => show_fits(alloc, source, into),
        }
    }

    /// What the source of a case makes, each of its lines ended by LF.
    pub fn shown(self, alloc: Global, case: &Case) -> Result<Bytes, NoMemory> {
        let mut into = Bytes::new(alloc);
        if self.has_text(case) {
            let text = case.source.strip_suffix(b"\n").unwrap_or(&case.source);
            self.show_text(alloc, text, &mut into)?;
        } else if let Err(unmade) = self.show_file(alloc, &case.source, &mut into) {
            show_unmade(unmade, &mut into)?;
        }
        Ok(into)
    }
}

/// Shows why a source makes nothing.
fn show_unmade(unmade: Unmade, into: &mut Bytes) -> Result<(), NoMemory> {
    match unmade {
        Unmade::Refused(refusal) => {
            show_refusal(&refusal, into)?;
            into.push(b'\n')
        }
        Unmade::TooLarge => into.push_slice(b"too large\n".as_slice()),
        Unmade::NoMemory => Err(NoMemory),
    }
}

/// Shows the cards of a source.
fn show_cards(alloc: Global, source: &[u8], into: &mut Bytes) -> Result<(), Unmade> {
    let cards = cards_of(alloc, source)?;
    for card in cards.as_slice() {
        show_card(card, into)?;
    }
    Ok(show_none(cards.is_empty(), into)?)
}

/// Shows which of the expressions of the lines of a source are the same tree.
fn show_trees(alloc: Global, source: &[u8], into: &mut Bytes) -> Result<(), Unmade> {
    let before = into.len();
    show_same(alloc, source, into)?;
    Ok(show_none(into.len() == before, into)?)
}

/// Shows the units of a source.
fn show_shape(alloc: Global, source: &[u8], into: &mut Bytes) -> Result<(), Unmade> {
    let units = units_of(alloc, source)?;
    for unit in units.as_slice() {
        show_unit(unit, into)?;
    }
    Ok(())
}

/// Shows that a source is within the limit on operands.
fn show_fits(alloc: Global, source: &[u8], into: &mut Bytes) -> Result<(), Unmade> {
    let _units = fitting_units_of(alloc, source)?;
    Ok(into.push_slice(b"fits\n".as_slice())?)
}

/// Shows the loops of a source.
fn show_loops(alloc: Global, source: &[u8], into: &mut Bytes) -> Result<(), Unmade> {
    let loops = loops_of(alloc, source)?;
    for one in loops.as_slice() {
        show_loop(one, into)?;
    }
    Ok(show_none(loops.is_empty(), into)?)
}

/// Shows the places in storage of the names of a source.
fn show_places(alloc: Global, source: &[u8], into: &mut Bytes) -> Result<(), Unmade> {
    let layout = layout_of(alloc, source)?;
    Ok(show_layout(&layout, into)?)
}

/// Shows that a source has constants where they are due.
fn show_due(alloc: Global, source: &[u8], into: &mut Bytes) -> Result<(), Unmade> {
    due_of(alloc, source)?;
    Ok(into.push_slice(b"kept\n".as_slice())?)
}

/// Shows the entities of a source.
fn show_entities(alloc: Global, source: &[u8], into: &mut Bytes) -> Result<(), Unmade> {
    let entities = entities_in(alloc, source)?;
    for place in 0..entities.len() {
        if let Some(entity) = entities.get(place) {
            show_resolved(entity, into)?;
        }
    }
    Ok(show_none(entities.is_empty(), into)?)
}

/// Shows that a source keeps all rules on names.
fn show_names(alloc: Global, source: &[u8], into: &mut Bytes) -> Result<(), Unmade> {
    let _entities = resolved_in(alloc, source)?;
    Ok(into.push_slice(b"kept\n".as_slice())?)
}

/// Shows that a source keeps the rules on declarations and uses of names.
fn show_uses(alloc: Global, source: &[u8], into: &mut Bytes) -> Result<(), Unmade> {
    uses_of(alloc, source)?;
    Ok(into.push_slice(b"kept\n".as_slice())?)
}

/// Shows that a source keeps the rules on kinds, and on numbers of subscripts and arguments.
fn show_kinds(alloc: Global, source: &[u8], into: &mut Bytes) -> Result<(), Unmade> {
    kinds_of(alloc, source)?;
    Ok(into.push_slice(b"kept\n".as_slice())?)
}

/// Shows that there is nothing to show.
fn show_none(is_empty: bool, into: &mut Bytes) -> Result<(), NoMemory> {
    if is_empty {
        into.push_slice(b"none\n".as_slice())?;
    }
    Ok(())
}
