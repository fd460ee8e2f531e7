//! An output, to which whole texts are written.
ghost use Rattle.digest_kinds.specs.Bytes.{ByteString};
ghost use Rattle.std.specs.Prelude.{◌≡◌, true, IsTrue};
ghost use Rattle.sum_lines.specs.sinks.{Buffered.WritesAll};
ghost use Rattle.sum_lines.specs.sinks.GivesAll.{GivesAll};

use crate::sinks::buffered::Buffered;
use crate::sinks::sink::{Sink, SinkFault};
use std::marker::Model;

/// A text that can be written to an output.
pub trait Text {
    /// The text.
    ghost text: { Self → ByteString };

    /// Writes the text to the buffer, without a flush.
    fn put<S: Sink>(&self, sink: &mut Buffered<S>) -> Result<(), SinkFault>
        ensures text { WritesAll sink.old sink.new (text self.now) result };
}

/// An output over a sink: between its calls nothing is buffered, and the sink is flushed.
#[derive(Debug, Drop)]
pub struct Output<S: Sink> {
    buffer: Buffered<S>,
}

impl<S: Sink> Model for Output<S> {
    ghost use Rattle.sum_lines.specs.sinks.{Buffered.IsFlushed, Output.OutputState};

    ghost Value = { OutputState };

    ghost view = { λ o. o.buffer.sink.output };

    ghost invariant = { λ o. IsFlushed o.buffer };
}

impl<S: Sink> Output<S> {
    /// Creates an output over a sink that is flushed, as each is before its first call.
    pub fn new(sink: S) -> Self
        requires flushed { IsTrue (S.state sink).flushed }
        ensures state { result ≡ (S.state sink).output }
    {
        Output {
            buffer: Buffered::new(sink),
        }
    }

    /// Returns the sink below it.
    pub fn get_ref(&self) -> &S
        ensures sink { S.state result.now ≡ record { output = self.now; flushed = true } }
    {
        self.buffer.get_ref()
    }

    /// Returns the sink below it.
    pub fn into_inner(self) -> S
        ensures sink { S.state result ≡ record { output = self; flushed = true } }
    {
        self.buffer.into_inner()
    }

    /// Writes a text, in one piece if it has at most [`CAPACITY`](crate::CAPACITY) bytes, and flushes the sink. Returns
    /// `SinkFault` if that fails; a prefix of the text was then written.
    pub fn write<T: Text>(&mut self, text: &T) -> Result<(), SinkFault>
        ensures text { GivesAll self.old self.new (T.text text.now) result }
    {
        text.put(&mut self.buffer)?;
        self.buffer.flush()
    }
}
