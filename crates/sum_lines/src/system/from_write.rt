//! A sink over a writer of `std`. Nothing else can call the writer, or set the log of what it took.
ghost use Rattle.std.specs.Option.{ForSome};
ghost use Rattle.std.specs.Prelude.{true, ◌≡◌, ◌++◌, OnSome, Some, unwrap_or, []};

use crate::sinks::sink::{Sink, SinkFault};
use crate::sinks::sink_log::{Flushed, Offer, SinkCalls, SinkLog};
use std::fmt::{self, Debug, Formatter};
use std::io::{ErrorKind, Write};
use std::snapshot::Snapshot;
use sum_settings::INTERRUPTION_LIMIT;

/// A sink that writes its bytes to a writer: if it is known what the writer holds (`known`), that is what it held at
/// first, and then what the log has as written.
#[derive(Drop)]
pub struct FromWrite<W: Write> {
    writer: W,
    // The writer as it was at first, and what it took since: only proofs see them.
    first: Snapshot<W>,
    log: SinkLog,
    ghost known: { ForSome (W.contents first.value) (λ bytes. W.contents writer ≡ Some (bytes ++ log.output.written)) },
}

impl<W: Write> FromWrite<W> {
    ghost use Rattle.sum_lines.specs.system.FromWrite.{from_write_state, held_at_first};

    /// Creates a sink over the writer. What the writer is known to hold counts as written.
    pub fn new(writer: W) -> Self
        ensures held { held_at_first result ≡ W.contents writer }
        ensures state { from_write_state result
            ≡ record {
              output = record {
                offered = [];
                written = unwrap_or (W.contents writer) [];
                failures = 0;
              };
              flushed = true;
            } }
    {
        FromWrite {
            first: Snapshot::of(&writer),
            writer,
            log: SinkLog::of(&SinkCalls),
        }
    }

    /// Returns the writer. If it was known what it held at first, it holds that and what was written.
    pub fn into_inner(self) -> W
        ensures contents { OnSome (held_at_first self)
            (W.contents result ≡ Some (from_write_state self).output.written) }
    {
        self.writer
    }
}

impl<W: Write> Debug for FromWrite<W> {
    fn fmt<F: fmt::Write>(&self, f: &mut Formatter<F>) -> fmt::Result {
        f.write_str("FromWrite")
    }
}

impl<W: Write> Sink for FromWrite<W> {
    ghost use Rattle.std.specs.Prelude.{Ok};
    ghost use Rattle.sum_lines.specs.system.FromWrite.{from_write_state, held_at_first};
    ghost use Rattle.sum_lines.specs.sinks.Sink.{WritesSome, Flushes};

    ghost state = { from_write_state };

    /// Writes a nonempty piece to the writer, and retries after each interruption. Returns `SinkFault` if the writer
    /// fails, accepts nothing of it, or is interrupted for the 1,000th time in a row ([`INTERRUPTION_LIMIT`]).
    fn write(&mut self, piece: &[u8]) -> Result<usize, SinkFault>
        ensures bytes { WritesSome (from_write_state self.old) (from_write_state self.new)
            piece.now result }
        ensures empty { piece.now ≡ [] → result ≡ Ok 0 }
        ensures held { held_at_first self.new ≡ held_at_first self.old }
    {
        if piece.is_empty() {
            self.log = self.log.with_note(&Offer(piece, &[]));
            return Ok(0);
        }
        for _ in 0..INTERRUPTION_LIMIT {
            match self.writer.write(piece) {
                Err(error) if error.kind() == ErrorKind::Interrupted => continue,
                Ok(0) | Err(_) => break,
                Ok(count) => {
                    self.log = self.log.with_note(&Offer(piece, &piece[..count]));
                    return Ok(count);
                }
            }
        }
        self.log = self.log.with_note(&Offer(piece, &[])).with_note(&SinkFault);
        Err(SinkFault)
    }

    /// Flushes the writer, once. Returns `SinkFault` if that fails.
    fn flush(&mut self) -> Result<(), SinkFault>
        ensures bytes { Flushes (from_write_state self.old) (from_write_state self.new) result }
        ensures held { held_at_first self.new ≡ held_at_first self.old }
    {
        match self.writer.flush() {
            Ok(()) => {
                self.log = self.log.with_note(&Flushed);
                Ok(())
            }
            Err(_) => {
                self.log = self.log.with_note(&SinkFault);
                Err(SinkFault)
            }
        }
    }
}
