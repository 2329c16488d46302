//! A sink that keeps nothing.

use crate::failed::Failed;
use crate::sink::Sink;

/// Takes whole pieces and keeps none, so it tells no bytes.
#[derive(Drop)]
pub struct NeverFailsSink;

impl NeverFailsSink {
    ghost use Rattle.std.specs.Prelude.{◌≡◌, None};
    ghost use Rattle.hyb_outside.specs.NeverFails.{never_fails_sink_seen};

    /// A new one. It tells no bytes, and has no faults.
    pub fn new() -> NeverFailsSink
        ensures fresh { never_fails_sink_seen result ≡ record { taken = None; faults = 0 } }
    {
        NeverFailsSink
    }
}

impl Sink for NeverFailsSink {
    ghost use Rattle.std.specs.Prelude.{◌≡◌, ◌<◌, ◌≤◌, ◌-◌, ◌^◌, [], length, take, Ok, IfOk, OnErr};
    ghost use Rattle.hyb_base.specs.Count.{Rose};
    ghost use Rattle.hyb_outside.specs.SinkSeen.{Takes};
    ghost use Rattle.hyb_outside.specs.NeverFails.{never_fails_sink_seen};

    ghost seen = { never_fails_sink_seen };

    /// Takes the whole piece. It never fails.
    fn write(&mut self, piece: &[u8]) -> Result<usize, Failed>
        ensures within { IfOk result (λ n. n ≤ length piece.now) }
        ensures some { IfOk result (λ n. 0 < length piece.now → 0 < n) }
        ensures takes { IfOk result (λ n. Takes (take n piece.now) (never_fails_sink_seen self.old) (never_fails_sink_seen self.new)) }
        ensures nothing { OnErr result (Takes [] (never_fails_sink_seen self.old) (never_fails_sink_seen self.new)) }
        ensures cause { OnErr result (Rose (never_fails_sink_seen self.old).faults (never_fails_sink_seen self.new).faults) }
        ensures counted { (never_fails_sink_seen self.new).faults ≤ 2 ^ 64 - 1 }

        // beyond the trait's
        ensures whole { result ≡ Ok (length piece.now) }
    {
        Ok(piece.len())
    }
}
