//! A buffer over a sink.
ghost use Rattle.std.specs.Prelude.{◌≡◌, ◌<◌, ◌≤◌, ◌-◌, ◌+◌, ◌++◌, [], length, min, take, IsTrue, OnErr, MatchResult};
ghost use Rattle.sum_lines.specs.sinks.Buffered.{Accepts, FailsToWrite, IsFlushed, WritesAll};
ghost use Rattle.sum_lines.specs.private.Buffered.{MakesRoom};
ghost use Rattle.sum_lines.specs.sinks.GivesAll.{GivesAll};

use crate::sinks::sink::{Sink, SinkFault, give_all};
use std::marker::Model;

/// The number of bytes that a buffer has room for.
pub const CAPACITY: usize = 8192;

/// A buffer over a sink, which offers the sink everything buffered in one piece when it is flushed, or when it is full
/// and gets one more byte.
///
/// A line of at most [`CAPACITY`] bytes is offered in one piece if nothing was buffered before the line and the buffer
/// is flushed at its end.
///
/// A call that returns `SinkFault` leaves nothing buffered: a prefix of the buffered bytes and of the call's text was
/// written, and the rest is lost. If the call doesn't flush, as with [`put_all`], that prefix is a proper one.
#[derive(Debug, Drop)]
pub struct Buffered<S: Sink> {
    sink: S,
    buffer: [u8; CAPACITY],
    len: usize,
}

impl<S: Sink> Model for Buffered<S> {
    ghost use Rattle.std.specs.Prelude.{◌≤◌, take};
    ghost use Rattle.sum_lines.specs.{declared.sinks.buffered.TheConstants.CAPACITY, sinks.Buffered.BufferState};

    ghost Value = { BufferState };

    ghost view = { λ s. record { sink = S.state s.sink; buffered = take s.len s.buffer } };

    ghost invariant = { λ s. s.len ≤ CAPACITY };
}

impl<S: Sink> Buffered<S> {
    /// Creates an empty buffer over `sink`. It is flushed if the sink is.
    pub fn new(sink: S) -> Self
        ensures state { result ≡ record { sink = S.state sink; buffered = [] } }
    {
        Buffered {
            sink,
            buffer: [0; CAPACITY],
            len: 0,
        }
    }

    /// Returns the sink below it.
    pub fn get_ref(&self) -> &S
        ensures sink { S.state result.now ≡ self.now.sink }
    {
        &self.sink
    }

    /// Returns the sink below it. What is buffered is lost.
    pub fn into_inner(self) -> S
        ensures sink { S.state result ≡ self.sink }
    {
        self.sink
    }

    /// Offers the sink all that is buffered, in one piece, and flushes the sink. Returns `SinkFault` if that fails.
    pub fn flush(&mut self) -> Result<(), SinkFault>
        ensures gives { GivesAll self.old.sink.output self.new.sink.output self.old.buffered
            result }
        ensures flushed { IsFlushed self.new }
    {
        self.give_buffered()?;
        self.sink.flush()
    }

    // Gives the sink what is buffered.
    fn give_buffered(&mut self) -> Result<(), SinkFault>
        ensures gives { GivesAll self.old.sink.output self.new.sink.output self.old.buffered
            result }
        ensures buffered { self.new.buffered ≡ [] }
        ensures flushed { OnErr result (IsTrue self.new.sink.flushed) }
    {
        let len = self.len;
        self.len = 0;
        give_all(&mut self.sink, &self.buffer[..len])
    }

    // Gives the sink what is buffered if there is no room for more.
    fn make_room(&mut self) -> Result<(), SinkFault>
        ensures { MakesRoom self.old self.new result }
    {
        if self.len < CAPACITY {
            return Ok(());
        }
        self.give_buffered()
    }

    // Accepts as much of the piece as there is room for. If there is no room, it first gives the sink what is buffered,
    // and returns `SinkFault` if the sink fails.
    fn accept(&mut self, piece: &[u8]) -> Result<usize, SinkFault>
        requires { 0 < length piece.now }
        ensures { MatchResult result
            (λ n. (n ≤ length piece.now) × (0 < n) × Accepts self.old self.new (take n piece.now))
            (λ _. FailsToWrite self.old self.new piece.now) }
    {
        self.make_room()?;
        let before = self.len;
        let count = copy_after(&mut self.buffer, before, piece);
        self.len = before + count;
        Ok(count)
    }
}

// Copies as much of the piece as there is room for after the first `len` bytes of the buffer, and returns how much.
fn copy_after(buffer: &mut [u8], len: usize, piece: &[u8]) -> usize
    requires { len ≤ length buffer.old }
    ensures count { result ≡ min (length piece.now) (length buffer.old - len) }
    ensures bytes { take (len + result) buffer.new ≡ take len buffer.old ++ take result piece.now }
{
    let count = piece.len().min(buffer.len() - len);
    buffer[len..len + count].copy_from_slice(&piece[..count]);
    count
}

/// Writes all of the bytes to the buffer.
#[tactic(auto, using(crate::proofs::SinkLemmas::at_first))]
pub fn put_all<S: Sink>(sink: &mut Buffered<S>, bytes: &[u8]) -> Result<(), SinkFault>
    ensures text { WritesAll sink.old sink.new bytes.now result }
{
    let mut rest = bytes;
    while !rest.is_empty() {
        let count = sink.accept(rest)?;
        rest = &rest[count..];
    }
    Ok(())
}
