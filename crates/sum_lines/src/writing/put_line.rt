//! The line that is written for a name and its digest.
ghost use Rattle.hex.specs.Hex.{encode_lower};
ghost use Rattle.std.specs.Prelude.{◌≡◌, length};
ghost use Rattle.sum_lines.specs.{Escape.escape, Escape.escape_differs, grammar.Shapes.backslash_if};
ghost use Rattle.sum_lines.specs.{sinks.Buffered.WritesAll};
ghost use Rattle.sum_lines.specs.writing.{Parts.part_text};
ghost use Rattle.sum_lines.specs.writing.PutLine.{layout, digest_line};

use crate::escape::needs_escape;
use crate::sinks::buffered::{Buffered, put_all};
use crate::sinks::output::Text;
use crate::sinks::sink::{Sink, SinkFault};
use crate::writing::parts::{Part, put_parts};
use digest_kinds::{Digest, Kind, LONGEST_KIND_TEXT};
use sum_settings::{Mode, Style};

/// The line of a name and its digest, which [`put_line`] writes.
#[derive(Clone, Copy, Debug)]
pub struct DigestLine<'a> {
    /// The form of the line.
    pub style: Style,
    /// The digest's algorithm and length.
    pub kind: Kind,
    /// The name.
    pub name: &'a [u8],
    /// The digest, which has the kind's length.
    pub digest: &'a Digest,
    ghost fits: { length digest.now ≡ kind.len },
}

impl<'a> Text for DigestLine<'a> {
    ghost use Rattle.sum_lines.specs.writing.PutLine.{digest_line};

    ghost text = { λ l. digest_line l.style l.kind l.name.now l.digest.now };

    fn put<S: Sink>(&self, sink: &mut Buffered<S>) -> Result<(), SinkFault> {
        put_line(sink, self.style, self.kind, self.name, self.digest)
    }
}

/// Writes the line of a name and its digest to the buffer. The digest has the kind's length.
#[tactic(auto, using(crate::proofs::SinkLemmas::writes_then, crate::proofs::SinkLemmas::writes_stop))]
pub fn put_line<S: Sink>(
    sink: &mut Buffered<S>,
    style: Style,
    kind: Kind,
    name: &[u8],
    digest: &Digest,
) -> Result<(), SinkFault>
    requires size { length digest.now ≡ kind.len }
    ensures text { WritesAll sink.old sink.new (digest_line style kind name.now digest.now) result }
{
    let mut buffer = [0; 128];
    let digits = digits_of(digest, &mut buffer);
    if style.zero {
        put_layout(sink, style.mode, kind, Part::Bytes(name), digits)?;
        return put_all(sink, b"\0");
    }
    let (mark, name) = mark_and_name(name);
    put_all(sink, mark)?;
    put_layout(sink, style.mode, kind, name, digits)?;
    put_all(sink, b"\n")
}

// The digits of a digest.
fn digits_of<'a>(digest: &Digest, buffer: &'a mut [u8; 128]) -> &'a [u8]
    ensures { result.now ≡ encode_lower digest.now }
{
    let count = digest.hex_into(buffer);
    &buffer[..count]
}

/// What a line begins with, a backslash or nothing; and the name, escaped. A name that is its own escape is scanned
/// only once.
#[doc(hidden)]
pub fn mark_and_name(name: &[u8]) -> (&'static [u8], Part<'_>)
    ensures mark { result.0.now ≡ backslash_if (escape_differs name.now) }
    ensures name { part_text result.1 ≡ escape name.now }
{
    if needs_escape(name) {
        (b"\\", Part::Escaped(name))
    } else {
        (b"", Part::Bytes(name))
    }
}

// Writes a line without its end and without the backslash that may begin it.
#[tactic(auto, using(crate::proofs::SinkLemmas::writes_then, crate::proofs::SinkLemmas::writes_stop))]
fn put_layout<'a, S: Sink>(
    sink: &mut Buffered<S>,
    mode: Mode,
    kind: Kind,
    name: Part<'a>,
    digits: &'a [u8],
) -> Result<(), SinkFault>
    ensures { WritesAll sink.old sink.new (layout mode kind (part_text name.entry) digits.now)
        result }
{
    let digits = Part::Bytes(digits);
    match mode {
        Mode::Text => put_parts(sink, &[digits, Part::Bytes(b"  "), name]),
        Mode::Binary => put_parts(sink, &[digits, Part::Bytes(b" *"), name]),
        Mode::Tag => {
            put_all(sink, kind.text_into(&mut [0; LONGEST_KIND_TEXT]).as_bytes())?;
            put_parts(
                sink,
                &[Part::Bytes(b" ("), name, Part::Bytes(b") = "), digits],
            )
        }
    }
}
