//! Windows at each value of an index, one after another.
ghost use Rattle.std.specs.Prelude.{◌≡◌, ℕ, ℤ, ◌+◌, ◌*◌, ◌<◌, ◌≤◌, ◌^◌, pos, length, is_some, slice_set, not};
ghost use Rattle.hyb_base.specs.declared.env.Env.{Env};
ghost use Rattle.sym_lmad.specs.Bindings.{IsReadable};
ghost use Rattle.sym_lmad.specs.Gain.{at_index};
ghost use Rattle.sym_lmad.specs.Naming.{reads_of};
ghost use Rattle.sym_lmad.specs.Same.{same_of};
ghost use Rattle.sym_lmad.specs.Worth.{worth_of};
ghost use Rattle.pdag_nodes.specs.Steps.{window_reads};
ghost use Rattle.pdag_nodes.specs.Windows as spec;
ghost use Rattle.pdag_nodes.specs.Windows.{window_by, is_full, is_behind, passed_to};

use hyb_base::cells::Cells;
use hyb_base::env::Env;
use sym_lmad::same::same;
use sym_lmad::sym::Sym;
use sym_lmad::value::value;

/// The first and the last number of a window. One whose last is before its first has no number.
pub(crate) type Window = (i64, i64);

/// The window between two ends, where both have a value.
fn between(low: Option<i64>, high: Option<i64>) -> Option<Window>
    ensures { result ≡ window_by low high }
{
    match (low, high) {
        (Some(low), Some(high)) => Some((low, high)),
        _ => None,
    }
}

/// Whether a window has a number.
fn full(window: Window) -> bool
    ensures { result ≡ is_full window }
{
    window.0 <= window.1
}

/// Whether a window is behind an earlier one.
fn behind(rising: bool, earlier: Window, later: Window) -> bool
    ensures { result ≡ is_behind rising earlier later }
{
    if rising {
        earlier.1 < later.0
    } else {
        later.1 < earlier.0
    }
}

/// Whether a window is behind the last one that isn't empty, if there is one.
fn follows(rising: bool, last: Option<Window>, window: Window) -> bool
    ensures { result ≡ spec.follows rising last window }
{
    match last {
        Some(last) => behind(rising, last, window),
        None => true,
    }
}

/// The last window that isn't empty after one more, where that one follows.
pub(crate) fn passed(rising: bool, last: Option<Window>, window: Window) -> Option<Option<Window>>
    ensures { result ≡ spec.passed rising last window }
{
    if full(window) {
        if follows(rising, last, window) {
            Some(Some(window))
        } else {
            None
        }
    } else {
        Some(last)
    }
}

/// The window between two symbols. One that is both ends is evaluated once.
pub(crate) fn window<C: Cells>(low: &Sym, high: &Sym, env: &Env, cells: &mut C) -> Option<Window>
    requires { IsReadable env.now (C.values cells.old) (C.may_get cells.old) }
    ensures value { result
        ≡ window_by (worth_of env.now (C.values cells.old) low.now) (worth_of env.now (C.values cells.old) high.now) }
    ensures same_values { C.values cells.new ≡ C.values cells.old }
    ensures same_test { C.may_get cells.new ≡ C.may_get cells.old }
    ensures reads { C.reads cells.new ≤ C.reads cells.old + window_reads low.now high.now }
{
    let first = value(low, env, cells);
    let last = if same(low, high) {
        first
    } else {
        value(high, env, cells)
    };
    between(first, last)
}
