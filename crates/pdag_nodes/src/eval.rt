//! Whether predicates hold.
ghost use Rattle.std.specs.Prelude.{◌≡◌, ℕ, ℤ, ◌+◌, ◌*◌, ◌<◌, ◌≤◌, ◌^◌, ◌&&◌, ◌||◌, pos, not, length, slice_get, slice_set, IfSome, is_some};
ghost use Rattle.hyb_base.specs.declared.env.Env.{Env};
ghost use Rattle.sym_lmad.specs.Bindings.{IsReadable};
ghost use Rattle.sym_lmad.specs.Gain.{at_index};
ghost use Rattle.sym_lmad.specs.Naming.{reads_of};
ghost use Rattle.sym_lmad.specs.Same.{same_of};
ghost use Rattle.sym_lmad.specs.Worth.{worth_of};
ghost use Rattle.pdag_nodes.specs.Nodes.{HaveIndices, ChildrenBelow, IndexBelow, meaning_of, truth_of, holds_by, reads_by, le_by, ne_by, every_by, ascending_by, sum_by_count};
ghost use Rattle.pdag_nodes.specs.Turns.{each_to, sum_to, turns_of};
ghost use Rattle.pdag_nodes.specs.Steps.{windows_of, window_reads, SameButIndex};
ghost use Rattle.pdag_nodes.specs.Windows.{are_ascending, where_asked};

use crate::pred::{Pred, PredId};
use crate::preds::Preds;
use crate::stable::is_stable;
use crate::windows::{Window, passed, window};
use hyb_base::cells::Cells;
use hyb_base::env::Env;
use sym_lmad::sym::Sym;
use sym_lmad::value::value;

/// Whether both values are there and the first is at most the second.
fn le(left: Option<i64>, right: Option<i64>) -> bool
    ensures { result ≡ le_by left right }
{
    match (left, right) {
        (Some(left), Some(right)) => left <= right,
        _ => false,
    }
}

/// Whether both values are there and differ.
fn ne(left: Option<i64>, right: Option<i64>) -> bool
    ensures { result ≡ ne_by left right }
{
    match (left, right) {
        (Some(left), Some(right)) => left != right,
        _ => false,
    }
}

/// Whether the first symbol is at most the second.
fn is_le<C: Cells>(left: &Sym, right: &Sym, env: &Env, cells: &mut C) -> bool
    requires { IsReadable env.now (C.values cells.old) (C.may_get cells.old) }
    ensures value { result
        ≡ le_by (worth_of env.now (C.values cells.old) left.now) (worth_of env.now (C.values cells.old) right.now) }
    ensures same_values { C.values cells.new ≡ C.values cells.old }
    ensures same_test { C.may_get cells.new ≡ C.may_get cells.old }
    ensures reads { C.reads cells.new ≤ C.reads cells.old + (reads_of left.now + reads_of right.now) }
{
    let left = value(left, env, cells);
    let right = value(right, env, cells);
    le(left, right)
}

/// Whether two symbols differ.
fn is_ne<C: Cells>(left: &Sym, right: &Sym, env: &Env, cells: &mut C) -> bool
    requires { IsReadable env.now (C.values cells.old) (C.may_get cells.old) }
    ensures value { result
        ≡ ne_by (worth_of env.now (C.values cells.old) left.now) (worth_of env.now (C.values cells.old) right.now) }
    ensures same_values { C.values cells.new ≡ C.values cells.old }
    ensures same_test { C.may_get cells.new ≡ C.may_get cells.old }
    ensures reads { C.reads cells.new ≤ C.reads cells.old + (reads_of left.now + reads_of right.now) }
{
    let left = value(left, env, cells);
    let right = value(right, env, cells);
    ne(left, right)
}

/// A count as a number of turns: 0 where it is negative.
fn turns(count: i64) -> u64
    ensures value { result ≡ turns_of count }
    ensures small { result < 2 ^ 63 }
{
    if count < 0 { 0 } else { count as u64 }
}

/// The number of a turn, counted from 1, as a value of an index.
fn ordinal(turn: u64) -> i64
    requires { turn + 1 < 2 ^ 63 }
    ensures { result ≡ pos (turn + 1) }
{
    (turn + 1) as i64
}

/// Whether the windows at each value of an index from 1 to a count follow each other. The index is left as it was last
/// set.
fn ascend<C: Cells>(
    index: u32,
    count: u64,
    low: &Sym,
    high: &Sym,
    rising: bool,
    env: &mut Env,
    cells: &mut C,
) -> bool
    requires readable { IsReadable env.old (C.values cells.old) (C.may_get cells.old) }
    requires place { index < length env.old.indices }
    requires small { count < 2 ^ 63 }
    ensures truth { result
        ≡ are_ascending rising (windows_of env.old (C.values cells.old) index low.now high.now) count }
    ensures same_env { SameButIndex index env.old env.new }
    ensures same_values { C.values cells.new ≡ C.values cells.old }
    ensures same_test { C.may_get cells.new ≡ C.may_get cells.old }
    ensures reads { C.reads cells.new ≤ C.reads cells.old + sum_to count (λ _. window_reads low.now high.now) }
{
    let mut last: Option<Window> = None;
    for turn in 0..count {
        env.indices.set(index as usize, ordinal(turn));
        let Some(window) = window(low, high, env, cells) else {
            return false;
        };
        match passed(rising, last, window) {
            Some(now) => last = now,
            None => return false,
        }
    }
    true
}

/// Whether the windows at each value of an index from 1 to a count follow each other, the bindings being as before
/// afterwards.
fn ascending<C: Cells>(
    index: u32,
    count: &Sym,
    low: &Sym,
    high: &Sym,
    rising: bool,
    env: &mut Env,
    cells: &mut C,
) -> bool
    requires readable { IsReadable env.old (C.values cells.old) (C.may_get cells.old) }
    requires place { index < length env.old.indices }
    ensures truth { result
        ≡ ascending_by rising (worth_of env.old (C.values cells.old) count.now)
        (windows_of env.old (C.values cells.old) index low.now high.now) }
    ensures same_env { env.new ≡ env.old }
    ensures same_values { C.values cells.new ≡ C.values cells.old }
    ensures same_test { C.may_get cells.new ≡ C.may_get cells.old }
    ensures reads { C.reads cells.new
        ≤ C.reads cells.old
        + (reads_of count.now
        + sum_by_count (worth_of env.old (C.values cells.old) count.now)
        (λ _. window_reads low.now high.now)) }
{
    let Some(count) = value(count, env, cells) else {
        return false;
    };
    let before = env.indices.get(index as usize).unwrap_or(0);
    let ascends = ascend(index, turns(count), low, high, rising, env, cells);
    env.indices.set(index as usize, before);
    ascends
}

impl Preds {
    /// Whether a predicate holds, the bindings being as before afterwards. It takes no memory.
    #[cycle(eval)]
    pub fn eval<C: Cells>(&self, id: PredId, env: &mut Env, cells: &mut C) -> bool
        requires readable { IsReadable env.old (C.values cells.old) (C.may_get cells.old) }
        requires there { id < length self.now }
        requires room { HaveIndices self.now (length env.old.indices) }
        ensures truth { result ≡ truth_of (C.values cells.old) self.now id env.old }
        ensures same_env { env.new ≡ env.old }
        ensures same_values { C.values cells.new ≡ C.values cells.old }
        ensures same_test { C.may_get cells.new ≡ C.may_get cells.old }
        ensures reads { C.reads cells.new
            ≤ C.reads cells.old + (meaning_of (C.values cells.old) self.now id env.old).reads }
    {
        self.judge(id, self.node(id), env, cells)
    }

    /// Whether a predicate holds that may be at a place of the list.
    #[cycle(eval)]
    fn judge<C: Cells>(&self, id: PredId, node: &Pred, env: &mut Env, cells: &mut C) -> bool
        requires readable { IsReadable env.old (C.values cells.old) (C.may_get cells.old) }
        requires there { id < length self.now }
        requires room { HaveIndices self.now (length env.old.indices) }
        requires children { ChildrenBelow id node.now }
        requires index { IndexBelow (length env.old.indices) node.now }
        ensures truth { result
            ≡ holds_by (C.values cells.old) (meaning_of (C.values cells.old) self.now) node.now env.old }
        ensures same_env { env.new ≡ env.old }
        ensures same_values { C.values cells.new ≡ C.values cells.old }
        ensures same_test { C.may_get cells.new ≡ C.may_get cells.old }
        ensures reads { C.reads cells.new
            ≤ C.reads cells.old
            + reads_by (C.values cells.old) (meaning_of (C.values cells.old) self.now) node.now env.old }
    {
        match node {
            Pred::True => true,
            Pred::False => false,
            Pred::Le(left, right) => is_le(left, right, env, cells),
            Pred::Ne(left, right) => is_ne(left, right, env, cells),
            Pred::And(first, second) => self.both(*first, *second, env, cells),
            Pred::Or(first, second) => self.either(*first, *second, env, cells),
            Pred::Every { index, count, body } => self.every(*index, count, *body, env, cells),
            Pred::Ascending {
                index,
                count,
                low,
                high,
                rising,
            } => ascending(*index, count, low, high, *rising, env, cells),
            Pred::Stable { reads, writes } => is_stable(env, reads, writes),
        }
    }

    /// Whether both predicates hold. The second is asked only where the first holds.
    #[cycle(eval)]
    fn both<C: Cells>(&self, first: PredId, second: PredId, env: &mut Env, cells: &mut C) -> bool
        requires readable { IsReadable env.old (C.values cells.old) (C.may_get cells.old) }
        requires first { first < length self.now }
        requires second { second < length self.now }
        requires room { HaveIndices self.now (length env.old.indices) }
        ensures truth { result
            ≡ (truth_of (C.values cells.old) self.now first env.old
            && truth_of (C.values cells.old) self.now second env.old) }
        ensures same_env { env.new ≡ env.old }
        ensures same_values { C.values cells.new ≡ C.values cells.old }
        ensures same_test { C.may_get cells.new ≡ C.may_get cells.old }
        ensures reads { C.reads cells.new
            ≤ C.reads cells.old
            + ((meaning_of (C.values cells.old) self.now first env.old).reads
            + where_asked (truth_of (C.values cells.old) self.now first env.old)
            (meaning_of (C.values cells.old) self.now second env.old).reads) }
    {
        if self.eval(first, env, cells) {
            self.eval(second, env, cells)
        } else {
            false
        }
    }

    /// Whether one of two predicates holds. The second is asked only where the first doesn't.
    #[cycle(eval)]
    fn either<C: Cells>(&self, first: PredId, second: PredId, env: &mut Env, cells: &mut C) -> bool
        requires readable { IsReadable env.old (C.values cells.old) (C.may_get cells.old) }
        requires first { first < length self.now }
        requires second { second < length self.now }
        requires room { HaveIndices self.now (length env.old.indices) }
        ensures truth { result
            ≡ (truth_of (C.values cells.old) self.now first env.old
            || truth_of (C.values cells.old) self.now second env.old) }
        ensures same_env { env.new ≡ env.old }
        ensures same_values { C.values cells.new ≡ C.values cells.old }
        ensures same_test { C.may_get cells.new ≡ C.may_get cells.old }
        ensures reads { C.reads cells.new
            ≤ C.reads cells.old
            + ((meaning_of (C.values cells.old) self.now first env.old).reads
            + where_asked (not (truth_of (C.values cells.old) self.now first env.old))
            (meaning_of (C.values cells.old) self.now second env.old).reads) }
    {
        if self.eval(first, env, cells) {
            true
        } else {
            self.eval(second, env, cells)
        }
    }

    /// Whether a predicate holds at each value of an index from 1 to a count, the bindings being as before afterwards.
    #[cycle(eval)]
    fn every<C: Cells>(
        &self,
        index: u32,
        count: &Sym,
        body: PredId,
        env: &mut Env,
        cells: &mut C,
    ) -> bool
        requires readable { IsReadable env.old (C.values cells.old) (C.may_get cells.old) }
        requires place { index < length env.old.indices }
        requires there { body < length self.now }
        requires room { HaveIndices self.now (length env.old.indices) }
        ensures truth { result
            ≡ every_by (worth_of env.old (C.values cells.old) count.now)
            (λ i. truth_of (C.values cells.old) self.now body (at_index env.old index i)) }
        ensures same_env { env.new ≡ env.old }
        ensures same_values { C.values cells.new ≡ C.values cells.old }
        ensures same_test { C.may_get cells.new ≡ C.may_get cells.old }
        ensures reads { C.reads cells.new
            ≤ C.reads cells.old
            + (reads_of count.now
            + sum_by_count (worth_of env.old (C.values cells.old) count.now)
            (λ i. (meaning_of (C.values cells.old) self.now body (at_index env.old index i)).reads)) }
    {
        let Some(count) = value(count, env, cells) else {
            return false;
        };
        let before = env.indices.get(index as usize).unwrap_or(0);
        let holds = self.each_turn(index, turns(count), body, env, cells);
        env.indices.set(index as usize, before);
        holds
    }

    /// Whether a predicate holds at each value of an index from 1 to a count. The index is left as it was last set.
    #[cycle(eval)]
    fn each_turn<C: Cells>(
        &self,
        index: u32,
        count: u64,
        body: PredId,
        env: &mut Env,
        cells: &mut C,
    ) -> bool
        requires readable { IsReadable env.old (C.values cells.old) (C.may_get cells.old) }
        requires place { index < length env.old.indices }
        requires small { count < 2 ^ 63 }
        requires there { body < length self.now }
        requires room { HaveIndices self.now (length env.old.indices) }
        ensures truth { result
            ≡ each_to count (λ i. truth_of (C.values cells.old) self.now body (at_index env.old index i)) }
        ensures same_env { SameButIndex index env.old env.new }
        ensures same_values { C.values cells.new ≡ C.values cells.old }
        ensures same_test { C.may_get cells.new ≡ C.may_get cells.old }
        ensures reads { C.reads cells.new
            ≤ C.reads cells.old
            + sum_to count
            (λ i. (meaning_of (C.values cells.old) self.now body (at_index env.old index i)).reads) }
    {
        for turn in 0..count {
            env.indices.set(index as usize, ordinal(turn));
            if !self.eval(body, env, cells) {
                return false;
            }
        }
        true
    }
}
