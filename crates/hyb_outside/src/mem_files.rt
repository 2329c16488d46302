//! Files in memory, as tests use them.

use crate::calls::Calls;
use crate::ends::count_end;
use crate::failed::Failed;
use crate::files::Files;
use crate::table::{Table, give};
use hyb_base::no_memory::NoMemory;
use std::alloc::Global;

/// Keeps names with contents, and fails at listed calls and where a name is missing.
///
/// A read takes no memory.
#[derive(Drop)]
pub struct MemFiles {
    table: Table,
    calls: Calls,
    faults: u64,
    ends: u64,
}

impl MemFiles {
    ghost use Rattle.std.specs.Prelude.{◌≡◌, ℕ, List, [], ◌∷◌, ◌++◌, None, OnOk, OnErr};
    ghost use Rattle.hyb_outside.specs.Table.{Replaces};
    ghost use Rattle.hyb_outside.specs.MemFiles.{mem_files_held, mem_files_seen};

    /// No files, and no call that is to fail. It takes no memory.
    pub fn new(alloc: Global) -> MemFiles
        ensures empty { (name : List ℕ) → (mem_files_held result).content name ≡ None }
        ensures fresh { mem_files_held result ≡ record (mem_files_held result) { fails = []; calls = 0; faults = 0; ends = 0 } }
    {
        MemFiles {
            table: Table::new(alloc),
            calls: Calls::new(alloc),
            faults: 0,
            ends: 0,
        }
    }

    /// Gives a name its content, in place of what it had. After an error nothing has changed.
    pub fn add(&mut self, name: &[u8], content: &[u8]) -> Result<(), NoMemory>
        ensures ok { OnOk result (Replaces name.now content.now
            (mem_files_held self.old).content (mem_files_held self.new).content) }
        ensures rest { OnOk result (mem_files_held self.new ≡
            record (mem_files_held self.old) { content = (mem_files_held self.new).content }) }
        ensures told { (mem_files_seen self.new).content ≡ (mem_files_held self.new).content }
        ensures err { OnErr result (mem_files_held self.new ≡ mem_files_held self.old) }
    {
        self.table.add(name, content)
    }

    /// Lets a call of `read_at` fail, by its number, counted from 1. After an error nothing has changed.
    pub fn fail_at(&mut self, call: u64) -> Result<(), NoMemory>
        ensures ok { OnOk result (mem_files_held self.new ≡
            record (mem_files_held self.old) { fails = (mem_files_held self.old).fails ++ call ∷ [] }) }
        ensures err { OnErr result (mem_files_held self.new ≡ mem_files_held self.old) }
    {
        self.calls.list(call)
    }
}

impl Files for MemFiles {
    ghost use Rattle.std.specs.Prelude.{◌≡◌, ◌<◌, ◌≤◌, ◌-◌, ◌^◌, ◌↔◌, length, IfOk, OnErr, IsErr, IsTrue};
    ghost use Rattle.hyb_base.specs.Count.{next_count, Rose};
    ghost use Rattle.hyb_outside.specs.FilesSeen.{FillsFrom, IsEnd, ends_after};
    ghost use Rattle.hyb_outside.specs.Table.{FillsWhatFits};
    ghost use Rattle.hyb_outside.specs.MemFiles.{mem_files_held, mem_files_seen, FailsAt};

    ghost seen = { mem_files_seen };

    /// Gives as many bytes as the buffer holds and the content has from the place. It fails exactly where the
    /// call is listed or the name is missing.
    fn read_at(&mut self, name: &[u8], from: u64, into: &mut [u8]) -> Result<usize, Failed>
        requires { IsTrue ((mem_files_seen self.old).may_read name.now) }
        ensures content { (mem_files_seen self.new).content ≡ (mem_files_seen self.old).content }
        ensures may_read { (mem_files_seen self.new).may_read ≡ (mem_files_seen self.old).may_read }
        ensures within { IfOk result (λ n. n ≤ length into.old) }
        ensures gives { IfOk result (λ n. FillsFrom ((mem_files_seen self.old).content name.now) from n into.new) }
        ensures end { IfOk result (λ n. n ≡ 0 → 0 < length into.old → IsEnd ((mem_files_seen self.old).content name.now) from) }
        ensures ends { IfOk result (λ n. (mem_files_seen self.new).ends ≡ ends_after n (length into.old) (mem_files_seen self.old).ends) }
        ensures no_end { OnErr result ((mem_files_seen self.new).ends ≡ (mem_files_seen self.old).ends) }
        ensures cause { OnErr result (Rose (mem_files_seen self.old).faults (mem_files_seen self.new).faults) }
        ensures faults { (mem_files_seen self.old).faults ≤ (mem_files_seen self.new).faults }
        ensures more_ends { (mem_files_seen self.old).ends ≤ (mem_files_seen self.new).ends }
        ensures counted_faults { (mem_files_seen self.new).faults ≤ 2 ^ 64 - 1 }
        ensures counted_ends { (mem_files_seen self.new).ends ≤ 2 ^ 64 - 1 }

        // beyond the trait's
        ensures fails { IsErr result ↔ FailsAt (mem_files_held self.old) name.now }
        ensures fills { IfOk result (λ n. FillsWhatFits ((mem_files_held self.old).content name.now) from n into.old into.new) }
        ensures ok { IfOk result (λ n. mem_files_held self.new ≡ record (mem_files_held self.old) {
          calls = next_count (mem_files_held self.old).calls;
          ends = ends_after n (length into.old) (mem_files_held self.old).ends;
        }) }
        ensures failed { OnErr result (mem_files_held self.new ≡ record (mem_files_held self.old) {
          calls = next_count (mem_files_held self.old).calls;
          faults = next_count (mem_files_held self.old).faults;
        }) }
        ensures buffer { OnErr result (into.new ≡ into.old) }
    {
        let faults = self.faults;
        let ends = self.ends;
        let is_listed = self.calls.make();
        if !is_listed {
            if let Some(content) = self.table.find(name) {
                let given = give(content, from, into);
                self.ends = count_end(given, into.len(), ends);
                return Ok(given);
            }
        }
        self.faults = faults.saturating_add(1);
        Err(Failed)
    }
}
