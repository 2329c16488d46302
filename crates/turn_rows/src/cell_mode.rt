//! How iterations use a cell.
ghost use Rattle.std.specs.Prelude.{◌≡◌};
ghost use Rattle.interleaving.specs.Region.{merged};
ghost use Rattle.region_run.specs.Machine.{operators};
ghost use Rattle.turn_rows.specs.CellModes.{mode_of};

use hyb_base::ops::RedOp;
use red_ops::apply;

/// How iterations use a cell.
#[derive(Clone, Copy)]
pub enum CellMode {
    /// They share it.
    Shared,
    /// Each writes a copy of its own.
    Private,
    /// Each accumulates a partial result of its own by this operator.
    Reduce(RedOp),
}

impl CellMode {
    /// The value of a cell after a commit, by its value before and the iteration's own.
    pub fn merged(self, value: i64, own: Option<i64>) -> i64
        ensures { result ≡ merged operators (mode_of self) value own }
    {
        match self {
            CellMode::Shared => value,
            CellMode::Private => own.unwrap_or(value),
            CellMode::Reduce(op) => match own {
                None => value,
                Some(partial) => apply(op, value, partial),
            },
        }
    }
}
