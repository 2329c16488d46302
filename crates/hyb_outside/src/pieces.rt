//! Pieces of output for three sinks, in one order.
ghost use Rattle.std.specs.Prelude.{[], ◌∷◌, map, OnOk, OnErr};
ghost use Rattle.hyb_outside.specs.SinkSeen.{Takes, Cuts};
ghost use Rattle.hyb_outside.specs.Pieces.{piece, sinks, Emits};
ghost use Rattle.hyb_outside.specs.Slices.{piece_of};

use crate::failed::Failed;
use crate::sink::Sink;

/// The sink that a piece is for.
#[derive(Clone, Copy, Debug, PartialEq, Eq)]
pub enum SinkName {
    /// The lines of the program.
    Out,
    /// Notes, traces, dumps and the status.
    Notes,
    /// The order of the steps.
    Order,
}

/// Offers a piece, and then what of it wasn't taken, until all of it is taken or a call fails.
///
/// After `Failed` the sink has taken less than the whole of the piece.
#[tactic(auto, using(crate::proofs::Takes::takes_more, crate::proofs::Takes::cuts, crate::proofs::Takes::takes_nil))]
pub fn offer<S: Sink>(sink: &mut S, piece: &[u8]) -> Result<(), Failed>
    ensures ok { OnOk result (Takes piece.now (S.seen sink.old) (S.seen sink.new)) }
    ensures failed { OnErr result (Cuts piece.now (S.seen sink.old) (S.seen sink.new)) }
{
    let mut done = 0;
    while done < piece.len() {
        let (_taken, rest) = piece.split_at(done);
        done += sink.write(rest)?;
    }
    Ok(())
}

/// Offers one piece to its sink. The others take nothing.
pub fn put<O: Sink, N: Sink, Q: Sink>(
    to: SinkName,
    bytes: &[u8],
    out: &mut O,
    notes: &mut N,
    order: &mut Q,
) -> Result<(), Failed>
    ensures { Emits (piece to bytes.now ∷ []) result
        (sinks (O.seen out.old) (N.seen notes.old) (Q.seen order.old))
        (sinks (O.seen out.new) (N.seen notes.new) (Q.seen order.new)) }
{
    match to {
        SinkName::Out => offer(out, bytes),
        SinkName::Notes => offer(notes, bytes),
        SinkName::Order => offer(order, bytes),
    }
}

/// Bytes for one of the sinks.
#[derive(Clone, Copy, Debug)]
pub struct Piece<'a> {
    /// The sink.
    pub to: SinkName,
    /// The bytes.
    pub bytes: &'a [u8],
}

/// Offers pieces in their order, up to the first that fails.
pub fn emit<O: Sink, N: Sink, Q: Sink>(
    pieces: &[Piece<'_>],
    out: &mut O,
    notes: &mut N,
    order: &mut Q,
) -> Result<(), Failed>
    ensures { Emits (map piece_of pieces.now) result
        (sinks (O.seen out.old) (N.seen notes.old) (Q.seen order.old))
        (sinks (O.seen out.new) (N.seen notes.new) (Q.seen order.new)) }
{
    for piece in pieces {
        put(piece.to, piece.bytes, out, notes, order)?;
    }
    Ok(())
}
