//! Counts that a program keeps in 64 bits.
ghost use Rattle.hyb_base.specs.Count.{CountsRise};

/// A count that rose is greater than before, below the end at which it stays: a law, with nothing to do.
pub fn law_of_counts()
    ensures { CountsRise }
{}
