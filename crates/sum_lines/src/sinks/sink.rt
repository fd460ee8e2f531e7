//! The trait of a sink, to which bytes are written.
ghost use Rattle.std.specs.Prelude.{◌≡◌, ◌≤◌, [], Ok, IsTrue, OnErr, length};
ghost use Rattle.sum_lines.specs.{declared.sinks.buffered.TheConstants.CAPACITY};
ghost use Rattle.sum_lines.specs.sinks.GivesAll.{GivesAll};
ghost use Rattle.sum_lines.specs.sinks.Sink.{SinkState, WritesSome, Flushes};

use sum_settings::Stop;
use thiserror::Error;

/// A call of a sink has failed.
///
/// Each function that writes to a buffer returns it if the sink below fails; [`Buffered`](crate::Buffered) says what
/// was written then.
#[derive(Clone, Copy, Debug, PartialEq, Eq, Error)]
#[error("a write failed")]
pub struct SinkFault;

impl From<SinkFault> for Stop {
    ghost use Rattle.std.specs.Prelude.{◌≡◌};
    ghost use Rattle.sum_settings.specs.declared.stop.Stop.TheVariants.{Write};

    ghost from_gives = { λ _ stop. stop ≡ Write };

    fn from(_fault: SinkFault) -> Stop {
        Stop::Write
    }
}

/// A destination of bytes, which writes those that it accepts at once and buffers none.
///
/// [`Buffered`](crate::Buffered) buffers bytes for a sink.
///
/// A call that returns `SinkFault` counts as one more failure. It leaves the sink flushed: what was held back below the
/// sink is lost.
pub trait Sink {
    /// The pieces that it was offered, one per write; the bytes of them that it accepted; how many of its calls have
    /// failed; and whether it is flushed.
    ghost state: { Self → SinkState };

    /// Accepts the first bytes of the piece and returns how many. Of an empty piece, it accepts none. Of any other
    /// piece, it accepts at least one byte, or it returns `SinkFault` and accepts nothing.
    fn write(&mut self, piece: &[u8]) -> Result<usize, SinkFault>
        // What was offered and written, the count of failures, and whether the sink is flushed.
        ensures bytes { WritesSome (state self.old) (state self.new) piece.now result }
        ensures empty { piece.now ≡ [] → result ≡ Ok 0 };

    /// Flushes what is below it. Returns `SinkFault` if that fails.
    fn flush(&mut self) -> Result<(), SinkFault>
        ensures bytes { Flushes (state self.old) (state self.new) result };
}

/// Gives a sink all of the bytes. It offers them in one piece, and after a write that accepts only a part, it offers
/// what remains. Returns `SinkFault` if a write failed; a prefix of the bytes was then written.
pub(crate) fn give_all<S: Sink>(sink: &mut S, bytes: &[u8]) -> Result<(), SinkFault>
    requires { length bytes.now ≤ CAPACITY }
    ensures gives { GivesAll (S.state sink.old).output (S.state sink.new).output bytes.now result }
    ensures flushed { OnErr result (IsTrue (S.state sink.new).flushed) }
{
    let mut rest = bytes;
    while !rest.is_empty() {
        let count = sink.write(rest)?;
        rest = &rest[count..];
    }
    Ok(())
}
