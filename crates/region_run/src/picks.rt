//! Lists of picks.
ghost use Rattle.std.specs.Prelude.{◌≡◌, ℕ, [], Some, IsTrue, IfSome, false, length};
ghost use Rattle.interleaving.specs.Region.{advanced_all};
ghost use Rattle.region_run.specs.Machine.{loop_machine, machine_of};

use crate::asks::Asks;
use crate::rows::Rows;
use crate::running::{Advanced, Running};
use hyb_base::cells::Cells;

impl<F> Advanced<F> {
    ghost use Rattle.region_run.specs.Advanced.{has_run};

    /// Whether an iteration took a step.
    pub fn has_run(&self) -> bool
        ensures { result ≡ has_run self.now }
    {
        match self {
            Advanced::Ran { .. } => true,
            Advanced::Over => false,
            Advanced::Faulted { .. } => false,
        }
    }
}

impl<P: Asks, R: Rows> Running<P, R> {
    ghost use Rattle.region_run.specs.Advanced.{came_through, has_run};
    ghost use Rattle.region_run.specs.InTurn.{AsInTurn};
    ghost use Rattle.region_run.specs.Running.{pending_of, region_of, IsRunning, SameLoop};
    ghost use Rattle.region_run.specs.declared.running.Advanced.TheVariants.{Over};

    /// Advances with each of the picks in order. The answer is the first at which no iteration took a step, and the picks after it
    /// aren't used; None where each pick's iteration took one. It takes no memory.
    ///
    /// Of a region that has just begun, whose iterations would run in turn without a fault and with traces that the modes fit, no
    /// more picks than they have steps each have one; as many picks bring it to its end, with the store that they leave in turn.
    pub fn advance_all<C: Cells>(
        &mut self,
        program: &P::Program,
        cells: &mut C,
        picks: &[u64],
    ) -> Option<Advanced<P::Fault>>
        requires running { IsRunning (P.is_of program.now) P.meant R.count R.own self.old }
        requires fits { P.total program.now ≡ length (C.values cells.old) }
        requires rows_fit { R.total self.old.rows ≡ length (C.values cells.old) }
        requires allowed { (a : ℕ) → IsTrue (C.may_get cells.old a) }
        ensures next { advanced_all (loop_machine P.event P.resumed P.done program.now) (R.modes self.old.rows) self.old.window picks.now (Some (region_of P.meant (P.start program.now) R.own self.old (C.values cells.old)))
            ≡ came_through result (region_of P.meant (P.start program.now) R.own self.new (C.values cells.new)) }
        ensures in_turn { AsInTurn (machine_of (P.event program.now) (P.resumed program.now) (P.done program.now)) (R.modes self.old.rows) self.old.variable picks.now (region_of P.meant (P.start program.now) R.own self.old (C.values cells.old)) result (region_of P.meant (P.start program.now) R.own self.new (C.values cells.new)) }
        ensures stopped { IfSome result (λ answer. has_run answer ≡ false) }
        ensures over { result ≡ Some Over → pending_of P.meant (P.start program.now) R.own self.new ≡ [] }
        ensures running { IsRunning (P.is_of program.now) P.meant R.count R.own self.new }
        ensures same { SameLoop R.modes R.count self.old self.new }
        ensures same_total { R.total self.new.rows ≡ R.total self.old.rows }
        ensures same_length { length (C.values cells.new) ≡ length (C.values cells.old) }
        ensures same_test { C.may_get cells.new ≡ C.may_get cells.old }
    {
        for pick in picks {
            let answer = self.advance(program, cells, *pick);
            if !answer.has_run() {
                return Some(answer);
            }
        }
        None
    }
}
