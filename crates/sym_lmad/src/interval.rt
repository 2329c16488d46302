//! Closed intervals of numbers, given by their ends.
ghost use Rattle.std.specs.Prelude.{◌↔◌, IsTrue};
ghost use Rattle.sym_lmad.specs.Interval.{AreDisjoint, IsIncluded};

/// Whether no number is in both intervals: the least of their last numbers is before the greatest of their first ones.
pub fn disjoint(a: (i64, i64), b: (i64, i64)) -> bool
    ensures { IsTrue result ↔ AreDisjoint a.0 a.1 b.0 b.1 }
{
    a.1.min(b.1) < a.0.max(b.0)
}

/// Whether each number of the first interval is in the second.
pub fn included(a: (i64, i64), b: (i64, i64)) -> bool
    ensures { IsTrue result ↔ IsIncluded a.0 a.1 b.0 b.1 }
{
    a.1 < a.0 || (b.0 <= a.0 && a.1 <= b.1)
}
