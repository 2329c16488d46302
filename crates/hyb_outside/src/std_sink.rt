//! The edge over a writer, as standard output and standard error are.

use crate::failed::Failed;
use crate::sink::Sink;
use std::io::Write;

/// Writes each piece to a writer, and tells no bytes.
///
/// What the system does with the bytes is outside of all proofs. Hand it a writer that keeps none back: nothing
/// here flushes.
#[derive(Drop)]
pub struct StdSink<W> {
    writer: W,
    faults: u64,
}

impl<W: Write> StdSink<W> {
    ghost use Rattle.std.specs.Prelude.{◌≡◌};
    ghost use Rattle.hyb_outside.specs.StdSink.{std_sink_seen, writer_of};

    /// A sink over a writer, with no faults by now.
    pub fn new(writer: W) -> StdSink<W>
        ensures fresh { (std_sink_seen result).faults ≡ 0 }
        ensures over { writer_of result ≡ writer }
    {
        StdSink { writer, faults: 0 }
    }
}

impl<W: Write> Sink for StdSink<W> {
    ghost use Rattle.std.specs.Prelude.{◌≡◌, ◌<◌, ◌≤◌, ◌-◌, ◌^◌, [], length, take, IfOk, OnOk, OnErr};
    ghost use Rattle.std.specs.Io.KnownBytes.{WriteAppends};
    ghost use Rattle.hyb_base.specs.Count.{next_count, Rose};
    ghost use Rattle.hyb_outside.specs.SinkSeen.{Takes};
    ghost use Rattle.hyb_outside.specs.StdSink.{std_sink_seen, writer_of};

    ghost seen = { std_sink_seen };

    /// Writes a piece once. It fails where the writer does, and where it takes no byte of a piece that isn't empty.
    fn write(&mut self, piece: &[u8]) -> Result<usize, Failed>
        ensures within { IfOk result (λ n. n ≤ length piece.now) }
        ensures some { IfOk result (λ n. 0 < length piece.now → 0 < n) }
        ensures takes { IfOk result (λ n. Takes (take n piece.now) (std_sink_seen self.old) (std_sink_seen self.new)) }
        ensures nothing { OnErr result (Takes [] (std_sink_seen self.old) (std_sink_seen self.new)) }
        ensures cause { OnErr result (Rose (std_sink_seen self.old).faults (std_sink_seen self.new).faults) }
        ensures counted { (std_sink_seen self.new).faults ≤ 2 ^ 64 - 1 }

        // beyond the trait's: what a writer holds, where it tells that, and the exact count
        ensures written { WriteAppends (W.contents (writer_of self.old)) (W.contents (writer_of self.new)) result piece.now }
        ensures ok { OnOk result ((std_sink_seen self.new).faults ≡ (std_sink_seen self.old).faults) }
        ensures failed { OnErr result ((std_sink_seen self.new).faults ≡ next_count (std_sink_seen self.old).faults) }
    {
        let faults = self.faults;
        match self.writer.write(piece) {
            Ok(taken) if taken > 0 || piece.is_empty() => Ok(taken),
            _ => {
                self.faults = faults.saturating_add(1);
                Err(Failed)
            }
        }
    }
}
