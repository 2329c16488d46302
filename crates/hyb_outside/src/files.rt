//! What gives the bytes of named files.
ghost use Rattle.std.specs.Prelude.{◌≡◌, ◌<◌, ◌≤◌, ◌-◌, ◌^◌, length, IfOk, OnErr, IsTrue};
ghost use Rattle.hyb_base.specs.Count.{next_count, Rose};
ghost use Rattle.hyb_outside.specs.FilesSeen.{FilesSeen, FillsFrom, IsEnd, ends_after};

use crate::failed::Failed;

/// Gives the bytes of files, which are known by names of bytes.
pub trait Files {
    ghost seen: { Self → FilesSeen };

    /// Reads bytes of a file from a place, counted from 0, into the front of a buffer, and answers how many.
    ///
    /// 0 for a buffer that isn't empty is the end of the file. It is `Failed` only where the count of
    /// faults rose in this call.
    fn read_at(&mut self, name: &[u8], from: u64, into: &mut [u8]) -> Result<usize, Failed>
        requires { IsTrue ((seen self.old).may_read name.now) }

        // what is asked for, and what is there, stays as it was
        ensures content { (seen self.new).content ≡ (seen self.old).content }
        ensures may_read { (seen self.new).may_read ≡ (seen self.old).may_read }

        // what is given
        ensures within { IfOk result (λ n. n ≤ length into.old) }
        ensures gives { IfOk result (λ n. FillsFrom ((seen self.old).content name.now) from n into.new) }
        ensures end { IfOk result (λ n. n ≡ 0 → 0 < length into.old → IsEnd ((seen self.old).content name.now) from) }
        ensures ends { IfOk result (λ n. (seen self.new).ends ≡ ends_after n (length into.old) (seen self.old).ends) }

        // a fault
        ensures no_end { OnErr result ((seen self.new).ends ≡ (seen self.old).ends) }
        ensures cause { OnErr result (Rose (seen self.old).faults (seen self.new).faults) }

        // the counts
        ensures faults { (seen self.old).faults ≤ (seen self.new).faults }
        ensures more_ends { (seen self.old).ends ≤ (seen self.new).ends }
        ensures counted_faults { (seen self.new).faults ≤ 2 ^ 64 - 1 }
        ensures counted_ends { (seen self.new).ends ≤ 2 ^ 64 - 1 };
}
