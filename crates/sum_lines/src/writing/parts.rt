//! Texts written in parts.
ghost use Rattle.std.specs.Prelude.{decimal};
ghost use Rattle.sum_lines.specs.{sinks.Buffered.WritesAll, writing.Parts.part_text, writing.Parts.joined_text};

use crate::escape::put_escaped;
use crate::sinks::buffered::{Buffered, put_all};
use crate::sinks::output::Text;
use crate::sinks::sink::{Sink, SinkFault};
use itoa::Buffer;

/// A part of a text.
#[derive(Clone, Copy, Debug)]
pub enum Part<'a> {
    /// These bytes, as they are.
    Bytes(&'a [u8]),
    /// A name, escaped.
    Escaped(&'a [u8]),
    /// A number in decimal digits, without a leading zero.
    Number(u64),
}

/// The text of these parts, one after another.
#[derive(Clone, Copy, Debug)]
pub struct Parts<'a>(pub &'a [Part<'a>]);

impl<'a> Text for Parts<'a> {
    ghost use Rattle.sum_lines.specs.writing.Parts.{joined_text};

    ghost text = { λ parts. joined_text parts.0.now };

    fn put<S: Sink>(&self, sink: &mut Buffered<S>) -> Result<(), SinkFault> {
        put_parts(sink, self.0)
    }
}

/// Writes the parts, one after another.
#[doc(hidden)]
#[tactic(auto, using(crate::proofs::SinkLemmas::at_first))]
pub fn put_parts<S: Sink>(sink: &mut Buffered<S>, parts: &[Part]) -> Result<(), SinkFault>
    ensures { WritesAll sink.old sink.new (joined_text parts.now) result }
{
    for part in parts {
        put_part(sink, *part)?;
    }
    Ok(())
}

// Writes one part.
fn put_part<S: Sink>(sink: &mut Buffered<S>, part: Part) -> Result<(), SinkFault>
    ensures { WritesAll sink.old sink.new (part_text part.entry) result }
{
    match part {
        Part::Bytes(bytes) => put_all(sink, bytes),
        Part::Escaped(name) => put_escaped(sink, name),
        Part::Number(number) => put_number(sink, number),
    }
}

/// Writes the number's decimal digits, without a leading zero.
pub fn put_number<S: Sink>(sink: &mut Buffered<S>, number: u64) -> Result<(), SinkFault>
    ensures text { WritesAll sink.old sink.new (decimal number) result }
{
    let mut buffer = Buffer::new();
    put_all(sink, buffer.format(number).as_bytes())
}
