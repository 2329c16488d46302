//! What takes bytes.
ghost use Rattle.std.specs.Prelude.{◌≡◌, ◌<◌, ◌≤◌, ◌-◌, ◌^◌, [], length, take, IfOk, OnErr};
ghost use Rattle.hyb_base.specs.Count.{Rose};
ghost use Rattle.hyb_outside.specs.SinkSeen.{SinkSeen, Takes};

use crate::failed::Failed;

/// Takes bytes piece by piece.
pub trait Sink {
    ghost seen: { Self → SinkSeen };

    /// Takes the first bytes of a piece, at least one where the piece isn't empty, and answers how many.
    ///
    /// It is `Failed` only where the count of faults rose in this call, and then no byte was taken.
    fn write(&mut self, piece: &[u8]) -> Result<usize, Failed>
        ensures within { IfOk result (λ n. n ≤ length piece.now) }
        ensures some { IfOk result (λ n. 0 < length piece.now → 0 < n) }
        ensures takes { IfOk result (λ n. Takes (take n piece.now) (seen self.old) (seen self.new)) }
        ensures nothing { OnErr result (Takes [] (seen self.old) (seen self.new)) }
        ensures cause { OnErr result (Rose (seen self.old).faults (seen self.new).faults) }
        ensures counted { (seen self.new).faults ≤ 2 ^ 64 - 1 };
}
