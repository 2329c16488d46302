//! How control goes through the statements of a unit and its DO-loops (ANSI X3.9-1978, sections 11.10.2 to 11.10.7).
ghost use Rattle.std.specs.Prelude.{◌≡◌, ◌+◌, ◌^◌, ◌<◌, ◌≤◌, ◌∷◌, [], length};
ghost use Rattle.f77_meaning.specs.Process.{come_to};
ghost use Rattle.f77_meaning.specs.Step.{past, past_do, past_increment, is_terminal};
ghost use Rattle.f77_machine.specs.Active.{active_of, actives_of};
ghost use Rattle.f77_machine.specs.Process.{frame_of, stage_of, KeepsPlace};

use super::{Process, Stage};
use crate::active::ActiveLoop;
use crate::listing::{listing_of, next_in};
use f77_ast::program::Program;
use f77_structure::units::source_line;

impl Process {
    /// A DO statement was executed: the range of its loop is run where its count isn't zero. Where that is zero,
    /// control goes past the range (section 11.10.4).
    pub fn enter(&mut self, program: &Program, new: ActiveLoop)
        requires room { length self.old.active.items < self.old.depth }
        requires after { new.last + 1 < 2 ^ 64 }
        ensures frame { frame_of self.new ≡ past_do program.now (active_of new) (frame_of self.old) }
        ensures place { KeepsPlace program.now self.old self.new }
    {
        if new.count == 0 {
            self.go_past(program, new.last);
        } else {
            self.active.push_reserved(new);
            self.come_to(program, new.from, Stage::Statement);
        }
    }

    /// The incrementation processing of the innermost active loop is done: its range is run again where iterations are
    /// left, and else it is inactive and control goes past its terminal statement (sections 11.10.4 and 11.10.7).
    pub fn turn(&mut self, program: &Program, innermost: ActiveLoop)
        requires room { length self.old.active.items < self.old.depth }
        requires left { innermost.done < innermost.count }
        requires after { self.old.at + 1 < 2 ^ 64 }
        ensures frame { frame_of self.new ≡ past_increment program.now (active_of innermost ∷ actives_of self.old.active.items) (frame_of self.old) }
        ensures place { KeepsPlace program.now self.old self.new }
    {
        if innermost.done + 1 < innermost.count {
            self.active.push_reserved(innermost.after_iteration());
            self.come_to(program, innermost.from, Stage::Statement);
        } else {
            self.go_past(program, self.at);
        }
    }

    /// The statement at a place is done: where that is the terminal statement of the innermost active loop, this
    /// loop's incrementation processing comes next (section 11.10.6), and else the next statement.
    pub fn go_past(&mut self, program: &Program, at: usize)
        requires after { at + 1 < 2 ^ 64 }
        ensures frame { frame_of self.new ≡ past program.now at (actives_of self.old.active.items) (frame_of self.old) }
        ensures place { KeepsPlace program.now self.old self.new }
    {
        if self.is_terminal(at) {
            self.come_to(program, at, Stage::Increment);
        } else {
            let next = next_in(listing_of(program.units.as_slice(), self.unit), at);
            self.come_to(program, next, Stage::Statement);
        }
    }

    /// Whether a place is that of the terminal statement of the innermost active loop.
    fn is_terminal(&self, at: usize) -> bool
        ensures { result ≡ is_terminal at (actives_of self.now.active.items) }
    {
        match self.active.last() {
            None => false,
            Some(innermost) => innermost.last == at,
        }
    }

    /// Comes to a statement: what was known of the one before is forgotten.
    fn come_to(&mut self, program: &Program, at: usize, stage: Stage)
        ensures frame { frame_of self.new ≡ come_to at (stage_of stage) (actives_of self.old.active.items) (frame_of self.old) }
        ensures place { KeepsPlace program.now self.old self.new }
    {
        self.at = at;
        self.stage = stage;
        self.items = 0;
        self.cells = 0;
        self.answers.clear();
        self.line = source_line(program, self.unit, at);
    }
}
