//! A sink that keeps its bytes in an array.
ghost use Rattle.std.specs.Prelude.{◌≡◌, ◌≤◌, ◌+◌, ◌<◌, [], length, min, IfOk, IsErr, IsTrue, OnErr, ◌↔◌};

use crate::sinks::sink::{Sink, SinkFault};
use crate::sinks::sink_log::{Flushed, Offer, SinkCalls, SinkLog};
use std::marker::Model;

/// A sink that keeps up to N bytes, and fails when it is full.
#[derive(Debug, Drop)]
pub struct ToldSink<const N: usize> {
    bytes: [u8; N],
    len: usize,
    limit: usize,
    log: SinkLog,
}

impl<const N: usize> Model for ToldSink<N> {
    ghost use Rattle.std.specs.Prelude.{◌≤◌, ◌-◌, take};
    ghost use Rattle.sum_lines.specs.sinks.ToldSink.{ToldSinkValue};

    ghost Value = { ToldSinkValue };

    ghost view = { λ s. record {
      state = record s.log { output = record s.log.output { written = take s.len s.bytes } };
      room = s.limit - s.len;
    } };

    ghost invariant = { λ s. (s.len ≤ s.limit) × (s.limit ≤ N) };
}

impl<const N: usize> ToldSink<N> {
    /// Creates an empty sink that accepts `stop` bytes, or N if that is less, and then fails.
    pub fn new(stop: usize) -> Self
        ensures empty { result.state.output.written ≡ [] }
        ensures room { result.room ≡ min stop N }

        // No call has failed, and nothing is held back.
        ensures failures { result.state.output.failures ≡ 0 }
        ensures flushed { IsTrue result.state.flushed }
    {
        ToldSink {
            bytes: [0; N],
            len: 0,
            limit: stop.min(N),
            log: SinkLog::of(&SinkCalls),
        }
    }

    /// Returns the bytes that were written.
    pub fn bytes(&self) -> &[u8]
        ensures bytes { result.now ≡ self.now.state.output.written }
    {
        &self.bytes[..self.len]
    }
}

impl<const N: usize> Sink for ToldSink<N> {
    ghost use Rattle.std.specs.Prelude.{Ok};
    ghost use Rattle.sum_lines.specs.sinks.Sink.{WritesSome, Flushes};

    ghost state = { λ s. s.state };

    /// Accepts what there is room for. Returns `SinkFault` if and only if there is no room and the piece isn't empty.
    /// From then on there is no room.
    fn write(&mut self, piece: &[u8]) -> Result<usize, SinkFault>
        ensures bytes { WritesSome self.old.state self.new.state piece.now result }
        ensures empty { piece.now ≡ [] → result ≡ Ok 0 }

        // It accepts what there is room for, and fails if and only if there is no room for a byte.
        ensures count { IfOk result (λ n. n ≡ min self.old.room (length piece.now)) }
        ensures full { IsErr result ↔ ((self.old.room ≡ 0) × (0 < length piece.now)) }

        // The room shrinks by what it accepted.
        ensures room { IfOk result (λ n. self.new.room + n ≡ self.old.room) }
        ensures room_on_err { OnErr result (self.new.room ≡ self.old.room) }
    {
        if piece.is_empty() {
            self.log = self.log.with_note(&Offer(piece, &[]));
            return Ok(0);
        }
        let count = piece.len().min(self.limit - self.len);
        if count == 0 {
            self.log = self.log.with_note(&Offer(piece, &[])).with_note(&SinkFault);
            return Err(SinkFault);
        }
        let bytes = &mut self.bytes[..];
        bytes[self.len..self.len + count].copy_from_slice(&piece[..count]);
        self.len += count;
        self.log = self.log.with_note(&Offer(piece, &piece[..count]));
        Ok(count)
    }

    /// Succeeds, and changes neither the bytes nor the room.
    fn flush(&mut self) -> Result<(), SinkFault>
        ensures ok { result ≡ Ok tt }
        ensures room { self.new.room ≡ self.old.room }
        ensures bytes { Flushes self.old.state self.new.state result }
    {
        self.log = self.log.with_note(&Flushed);
        Ok(())
    }
}
