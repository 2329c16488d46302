//! Files in memory that never fail.

use crate::ends::count_end;
use crate::failed::Failed;
use crate::files::Files;
use crate::table::{Table, give};
use hyb_base::no_memory::NoMemory;
use std::alloc::Global;

/// Keeps names with contents. A missing name reads as an empty file.
///
/// A read takes no memory.
#[derive(Drop)]
pub struct NeverFailsFiles {
    table: Table,
    ends: u64,
}

impl NeverFailsFiles {
    ghost use Rattle.std.specs.Prelude.{◌≡◌, ℕ, List, [], Some, OnOk, OnErr};
    ghost use Rattle.hyb_outside.specs.Table.{Replaces};
    ghost use Rattle.hyb_outside.specs.NeverFails.{never_fails_files_seen};

    /// No files. It takes no memory.
    pub fn new(alloc: Global) -> NeverFailsFiles
        ensures empty { (name : List ℕ) → (never_fails_files_seen result).content name ≡ Some [] }
        ensures fresh { (never_fails_files_seen result).ends ≡ 0 }
    {
        NeverFailsFiles {
            table: Table::new(alloc),
            ends: 0,
        }
    }

    /// Gives a name its content, in place of what it had. After an error nothing has changed.
    pub fn add(&mut self, name: &[u8], content: &[u8]) -> Result<(), NoMemory>
        ensures ok { OnOk result (Replaces name.now content.now
            (never_fails_files_seen self.old).content (never_fails_files_seen self.new).content) }
        ensures ends { (never_fails_files_seen self.new).ends ≡ (never_fails_files_seen self.old).ends }
        ensures err { OnErr result (never_fails_files_seen self.new ≡ never_fails_files_seen self.old) }
    {
        self.table.add(name, content)
    }
}

impl Files for NeverFailsFiles {
    ghost use Rattle.std.specs.Prelude.{◌≡◌, ◌<◌, ◌≤◌, ◌-◌, ◌^◌, length, IfOk, OnErr, IsOk, IsTrue};
    ghost use Rattle.hyb_base.specs.Count.{Rose};
    ghost use Rattle.hyb_outside.specs.FilesSeen.{FillsFrom, IsEnd, ends_after};
    ghost use Rattle.hyb_outside.specs.Table.{FillsWhatFits};
    ghost use Rattle.hyb_outside.specs.NeverFails.{never_fails_files_seen};

    ghost seen = { never_fails_files_seen };

    /// Gives as many bytes as the buffer holds and the content has from the place. It never fails.
    fn read_at(&mut self, name: &[u8], from: u64, into: &mut [u8]) -> Result<usize, Failed>
        requires { IsTrue ((never_fails_files_seen self.old).may_read name.now) }
        ensures content { (never_fails_files_seen self.new).content ≡ (never_fails_files_seen self.old).content }
        ensures may_read { (never_fails_files_seen self.new).may_read ≡ (never_fails_files_seen self.old).may_read }
        ensures within { IfOk result (λ n. n ≤ length into.old) }
        ensures gives { IfOk result (λ n. FillsFrom ((never_fails_files_seen self.old).content name.now) from n into.new) }
        ensures end { IfOk result (λ n. n ≡ 0 → 0 < length into.old → IsEnd ((never_fails_files_seen self.old).content name.now) from) }
        ensures ends { IfOk result (λ n. (never_fails_files_seen self.new).ends ≡ ends_after n (length into.old) (never_fails_files_seen self.old).ends) }
        ensures no_end { OnErr result ((never_fails_files_seen self.new).ends ≡ (never_fails_files_seen self.old).ends) }
        ensures cause { OnErr result (Rose (never_fails_files_seen self.old).faults (never_fails_files_seen self.new).faults) }
        ensures faults { (never_fails_files_seen self.old).faults ≤ (never_fails_files_seen self.new).faults }
        ensures more_ends { (never_fails_files_seen self.old).ends ≤ (never_fails_files_seen self.new).ends }
        ensures counted_faults { (never_fails_files_seen self.new).faults ≤ 2 ^ 64 - 1 }
        ensures counted_ends { (never_fails_files_seen self.new).ends ≤ 2 ^ 64 - 1 }

        // beyond the trait's
        ensures never_fails { IsOk result }
        ensures fills { IfOk result (λ n. FillsWhatFits ((never_fails_files_seen self.old).content name.now) from n into.old into.new) }
    {
        let content = self.table.find(name).unwrap_or(&[]);
        let given = give(content, from, into);
        self.ends = count_end(given, into.len(), self.ends);
        Ok(given)
    }
}
