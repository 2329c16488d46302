//! What was read of a file: its cards by now, and the statement whose lines are being read.
ghost use Rattle.std.specs.Prelude.{◌≡◌, false, OnOk, IfOk, Ok};

use crate::draft::Draft;
use crate::line::Line;
use crate::rules::{first_rule, leading_rule, refused};
use f77_ast::program::Card;
use f77_ast::refusal::FrontError;
use hyb_base::list::List;
use std::alloc::Global;

/// What was read of a file.
#[derive(Drop)]
pub struct Reader {
    /// The cards of the statements that have ended.
    pub cards: List<Card>,
    /// The statement whose lines are being read: none before the first initial line.
    pub draft: Option<Draft>,
}

impl Reader {
    ghost use Rattle.std.specs.Prelude.{[], None};
    ghost use Rattle.f77_cards.specs.Reading.{with_ended, begin_by, first_rule, begin_after, continue_by, step, RefusedAs};

    /// Before the first line. It takes no memory.
    pub fn new(alloc: Global) -> Reader
        ensures { result ≡ record { cards = []; draft = None } }
    {
        Reader {
            cards: List::new(alloc),
            draft: None,
        }
    }

    /// Reads one more line of the file.
    ///
    /// Refused with the first of these that fits, and its line: where an initial line ends a statement, what
    /// `Draft::end` says of that; the codes 1 to 3 of an initial line; the codes 1 to 3 and 6 of a continuation line
    /// before any initial line.
    pub fn read_line(&mut self, alloc: Global, line: &Line) -> Result<(), FrontError>
        ensures read { OnOk result (step self.old line.now ≡ Ok self.new) }
        ensures refused { RefusedAs result (step self.old line.now) }
    {
        if line.is_comment() {
            Ok(())
        } else if line.is_initial() {
            self.begin_after(alloc, line)
        } else {
            self.go_on(line)
        }
    }

    /// Ends the statement that is being read, and begins that of an initial line.
    fn begin_after(&mut self, alloc: Global, line: &Line) -> Result<(), FrontError>
        ensures read { OnOk result (begin_after self.old line.now ≡ Ok self.new) }
        ensures refused { RefusedAs result (begin_after self.old line.now) }
    {
        self.end()?;
        self.begin(alloc, line)
    }

    /// Ends the statement that is being read, if any.
    fn end(&mut self) -> Result<(), FrontError>
        ensures read { OnOk result (with_ended self.old.cards self.old.draft ≡ Ok self.new.cards) }
        ensures refused { RefusedAs result (with_ended self.old.cards self.old.draft) }
    {
        match self.draft.take() {
            None => Ok(()),
            Some(draft) => match draft.end() {
                Err(refusal) => Err(FrontError::Refused(refusal)),
                Ok(card) => {
                    self.cards.push(card)?;
                    Ok(())
                }
            },
        }
    }

    /// Begins the statement of an initial line.
    fn begin(&mut self, alloc: Global, line: &Line) -> Result<(), FrontError>
        ensures read { OnOk result (begin_by (first_rule false line.now) self.old.cards line.now ≡ Ok self.new) }
        ensures refused { RefusedAs result (begin_by (first_rule false line.now) self.old.cards line.now) }
    {
        match first_rule(false, line) {
            Some(rule) => Err(refused(line, rule)),
            None => {
                self.draft = Some(Draft::begin(alloc, line)?);
                Ok(())
            }
        }
    }

    /// Reads a continuation line.
    fn go_on(&mut self, line: &Line) -> Result<(), FrontError>
        ensures read { OnOk result (continue_by self.old.cards self.old.draft line.now ≡ Ok self.new) }
        ensures refused { RefusedAs result (continue_by self.old.cards self.old.draft line.now) }
    {
        match &mut self.draft {
            None => Err(refused(line, leading_rule(line))),
            Some(draft) => {
                draft.go_on(line)?;
                Ok(())
            }
        }
    }

    /// The cards of the file, after its last line.
    pub fn finish(mut self) -> Result<List<Card>, FrontError>
        ensures read { IfOk result (λ cards. with_ended self.cards self.draft ≡ Ok cards) }
        ensures refused { RefusedAs result (with_ended self.cards self.draft) }
    {
        self.end()?;
        Ok(self.cards)
    }
}
