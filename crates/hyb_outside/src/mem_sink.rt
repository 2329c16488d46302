//! A sink in memory, as tests use it.
ghost use Rattle.std.specs.Prelude.{◌≤◌, vec_capacity, vec_len};

use crate::calls::Calls;
use crate::failed::Failed;
use crate::sink::Sink;
use hyb_base::no_memory::NoMemory;
use std::alloc::Global;

/// Keeps the bytes taken in a room of fixed size, and fails at listed calls.
///
/// It takes whole pieces, and no memory after it was made.
#[derive(Drop)]
pub struct MemSink {
    bytes: Vec<u8>,
    room: usize,
    calls: Calls,
    faults: u64,
    ghost reserved: { room ≤ vec_capacity bytes },
    ghost within: { vec_len bytes ≤ room },
}

impl MemSink {
    ghost use Rattle.std.specs.Prelude.{◌≡◌, [], ◌∷◌, ◌++◌, Some, IfOk, OnOk, OnErr};
    ghost use Rattle.hyb_outside.specs.MemSink.{mem_sink_held, mem_sink_seen};

    /// An empty sink with room for `room` bytes, none of whose calls is to fail.
    pub fn new(alloc: Global, room: usize) -> Result<MemSink, NoMemory>
        ensures { IfOk result (λ s. mem_sink_held s ≡ record { taken = []; room = room; fails = []; calls = 0; faults = 0 }) }
    {
        Ok(MemSink {
            bytes: Vec::with_capacity(alloc, room)?,
            room,
            calls: Calls::new(alloc),
            faults: 0,
        })
    }

    /// Lets a call of `write` fail, by its number, counted from 1. After an error the sink is as before.
    pub fn fail_at(&mut self, call: u64) -> Result<(), NoMemory>
        ensures ok { OnOk result (mem_sink_held self.new ≡
            record (mem_sink_held self.old) { fails = (mem_sink_held self.old).fails ++ call ∷ [] }) }
        ensures err { OnErr result (mem_sink_held self.new ≡ mem_sink_held self.old) }
    {
        self.calls.list(call)
    }

    /// The bytes taken.
    pub fn taken(&self) -> &[u8]
        ensures held { result.now ≡ (mem_sink_held self.now).taken }
        ensures told { (mem_sink_seen self.now).taken ≡ Some result.now }
    {
        self.bytes.as_slice()
    }
}

impl Sink for MemSink {
    ghost use Rattle.std.specs.Prelude.{◌≡◌, ◌<◌, ◌≤◌, ◌-◌, ◌^◌, ◌↔◌, [], ◌++◌, length, take, IfOk, OnOk, OnErr, IsErr};
    ghost use Rattle.hyb_base.specs.Count.{next_count, Rose};
    ghost use Rattle.hyb_outside.specs.SinkSeen.{Takes};
    ghost use Rattle.hyb_outside.specs.MemSink.{mem_sink_held, mem_sink_seen, Refuses};

    ghost seen = { mem_sink_seen };

    /// Takes the whole piece. It fails exactly where the call is listed or the piece is longer than the room left.
    fn write(&mut self, piece: &[u8]) -> Result<usize, Failed>
        ensures within { IfOk result (λ n. n ≤ length piece.now) }
        ensures some { IfOk result (λ n. 0 < length piece.now → 0 < n) }
        ensures takes { IfOk result (λ n. Takes (take n piece.now) (mem_sink_seen self.old) (mem_sink_seen self.new)) }
        ensures nothing { OnErr result (Takes [] (mem_sink_seen self.old) (mem_sink_seen self.new)) }
        ensures cause { OnErr result (Rose (mem_sink_seen self.old).faults (mem_sink_seen self.new).faults) }
        ensures counted { (mem_sink_seen self.new).faults ≤ 2 ^ 64 - 1 }

        // beyond the trait's
        ensures refuses { IsErr result ↔ Refuses (mem_sink_held self.old) piece.now }
        ensures whole { IfOk result (λ n. n ≡ length piece.now) }
        ensures ok { OnOk result (mem_sink_held self.new ≡ record (mem_sink_held self.old) {
          taken = (mem_sink_held self.old).taken ++ piece.now;
          calls = next_count (mem_sink_held self.old).calls;
        }) }
        ensures failed { OnErr result (mem_sink_held self.new ≡ record (mem_sink_held self.old) {
          calls = next_count (mem_sink_held self.old).calls;
          faults = next_count (mem_sink_held self.old).faults;
        }) }
    {
        let faults = self.faults;
        let is_listed = self.calls.make();
        if is_listed || piece.len() > self.room - self.bytes.len() {
            self.faults = faults.saturating_add(1);
            return Err(Failed);
        }
        self.bytes.extend_from_slice(piece).unwrap();
        Ok(piece.len())
    }
}
