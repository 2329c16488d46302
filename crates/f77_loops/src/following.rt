//! What is known of the statements that follow one of a unit.
ghost use Rattle.std.specs.Prelude.{◌≡◌, ◌+◌, ◌∷◌, [], ◌++◌, OnOk, List, if◌then◌else◌};
ghost use Rattle.std.specs.Option.{option_map, option_to_list};
ghost use Rattle.f77_ast.specs.declared.program.Listed.{Listed};
ghost use Rattle.f77_structure.specs.Statements.{terminal_label, is_barrier};
ghost use Rattle.f77_loops.specs.Following.{last_by, is_closed_to, range_by, Knows};

use crate::ranges::Range;
use f77_ast::program::Listed;
use f77_ast::stmt::{Label, Stmt};
use f77_structure::statements::{is_barrier, terminal_label};
use f77_structure::targets::Targets;
use hyb_base::no_memory::NoMemory;
use std::alloc::Global;

/// What is known of the statements that follow one of a unit. Statements are counted in the file, from 1.
#[derive(Drop)]
pub struct Following {
    /// The number of the statement after the unit's last one.
    pub end: u32,
    /// For each label the nearest executable statement that has it.
    pub targets: Targets<u32>,
    /// The nearest barrier: no loop with it in its range is closed.
    pub barrier: Option<u32>,
    /// The ranges of their DO statements, the last one's first.
    pub ranges: Vec<Range>,
}

impl Following {
    /// After a unit's last statement. It takes no memory.
    pub fn new(alloc: Global, end: u32) -> Following
        ensures { Knows end [] result }
    {
        Following {
            end,
            targets: Targets::new(alloc),
            barrier: None,
            ranges: Vec::new(alloc),
        }
    }

    /// The nearest executable statement that has this label, or the number after the unit's last statement.
    fn last(&self, label: Label) -> u32
        ensures { result ≡ last_by self.now label }
    {
        self.targets.find(label).unwrap_or(self.end)
    }

    /// Whether no statement up to this one is a barrier.
    fn is_closed_to(&self, last: u32) -> bool
        ensures { result ≡ is_closed_to last self.now.barrier }
    {
        match self.barrier {
            None => true,
            Some(barrier) => last < barrier,
        }
    }

    /// The range of a DO statement that is here; none of any other statement.
    fn range_of(&self, stmt: &Stmt) -> Option<Range>
        ensures { result ≡ option_map (range_by self.now) (terminal_label stmt.now) }
    {
        let label = terminal_label(stmt)?;
        let last = self.last(label);
        Some(Range {
            last,
            closed: self.is_closed_to(last),
        })
    }

    /// Goes back by one statement, which has this number.
    pub fn go_back(&mut self, number: u32, listed: &Listed) -> Result<(), NoMemory>
        ensures { OnOk result ((following : List Listed) → Knows (number + 1) following self.old → Knows number (listed.now ∷ following) self.new) }
    {
        let range = self.range_of(&listed.stmt);
        add_range(&mut self.ranges, range)?;
        self.targets.note(number, listed)?;
        self.barrier = barrier_before(self.barrier, number, &listed.stmt);
        Ok(())
    }
}

/// Adds a range, if any.
fn add_range(ranges: &mut Vec<Range>, range: Option<Range>) -> Result<(), NoMemory>
    ensures { OnOk result (ranges.new.items ≡ ranges.old.items ++ option_to_list range) }
{
    if let Some(range) = range {
        ranges.push(range)?;
    }
    Ok(())
}

/// The nearest barrier, after going back by a statement.
fn barrier_before(barrier: Option<u32>, number: u32, stmt: &Stmt) -> Option<u32>
    ensures { result ≡ (if is_barrier stmt.now then Some number else barrier) }
{
    if is_barrier(stmt) {
        Some(number)
    } else {
        barrier
    }
}
