//! A statement whose lines are being read (ANSI X3.9-1978, section 3.3).
ghost use Rattle.std.specs.Prelude.{◌≡◌, OnOk, IfOk};

use crate::line::Line;
use crate::rules::continuation_break;
use crate::text::{ends_inside, push_text};
use f77_ast::program::Card;
use f77_ast::refusal::Refusal;
use f77_ast::rule::Rule;
use hyb_base::bytes::Bytes;
use hyb_base::no_memory::NoMemory;
use std::alloc::Global;

/// The number of columns from 7 to 72.
const TEXT_COLUMNS: usize = 66;

/// A statement whose lines are being read: its initial line keeps the rules.
#[derive(Drop)]
pub struct Draft {
    /// Its card by now.
    pub card: Card,
    /// Whether its text by now ends inside a character constant.
    pub inside: bool,
    /// The number of its continuation lines by now; it stays at 2^32 - 1.
    pub continuations: u32,
    /// The first refusal of its continuation lines by now.
    pub broken: Option<Refusal>,
}

impl Draft {
    ghost use Rattle.f77_cards.specs.Reading.{begun, continued, ended};

    /// A statement after its initial line.
    pub fn begin(alloc: Global, line: &Line) -> Result<Draft, NoMemory>
        ensures { IfOk result (λ draft. draft ≡ begun line.now) }
    {
        let mut text = Bytes::with_capacity(alloc, TEXT_COLUMNS)?;
        push_text(&mut text, false, line.text_field())?;
        let card = Card {
            label: line.label(),
            line: line.number,
            text,
        };
        Ok(Draft {
            card,
            inside: ends_inside(false, line.text_field()),
            continuations: 0,
            broken: None,
        })
    }

    /// Reads one more continuation line.
    pub fn go_on(&mut self, line: &Line) -> Result<(), NoMemory>
        ensures { OnOk result (self.new ≡ continued self.old line.now) }
    {
        self.continuations = self.continuations.saturating_add(1);
        if self.broken.is_none() {
            self.broken = continuation_break(self.continuations, self.inside, line);
        }
        push_text(&mut self.card.text, self.inside, line.text_field())?;
        self.inside = ends_inside(self.inside, line.text_field());
        Ok(())
    }

    /// Its card at its end.
    ///
    /// Refused with the first of these that fits, and its line: 5, its text ends inside a character constant, with
    /// its initial line; the first refusal of its continuation lines.
    pub fn end(self) -> Result<Card, Refusal>
        ensures { result ≡ ended self }
    {
        if self.inside {
            return Err(Refusal::new(self.card.line, Rule::OpenConstant));
        }
        match self.broken {
            None => Ok(self.card),
            Some(refusal) => Err(refusal),
        }
    }
}
