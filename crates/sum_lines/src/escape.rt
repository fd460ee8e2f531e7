//! The escape of names in lines and diagnostics.
ghost use Rattle.digest_kinds.specs.Bytes.{ByteString};
ghost use Rattle.std.specs.Prelude.{◌≡◌, ◌≢◌, ◌↔◌, ◌<◌, ◌≤◌, ◌∷◌, ◌++◌, [], ℕ, length, vec_len, take, drop, is_some};
ghost use Rattle.std.specs.Prelude.{IsTrue, IfSome, IfNone, MatchOption};
ghost use Rattle.sum_lines.specs.{Escape.escape, Escape.escape_differs, sinks.Buffered.WritesAll};

use crate::sinks::buffered::{Buffered, put_all};
use crate::sinks::sink::{Sink, SinkFault};
use memchr::memchr3;
use std::alloc::Allocator;

/// Returns whether the escaped name differs from the name.
pub fn needs_escape(name: &[u8]) -> bool
    ensures value { result ≡ escape_differs name.now }
{
    next_special(name).is_some()
}

/// Writes the escaped name: `\\` for a backslash, `\n` for a newline, `\r` for a carriage return, each other byte as
/// it is.
#[tactic(auto, using(crate::proofs::SinkLemmas::at_first))]
pub fn put_escaped<S: Sink>(sink: &mut Buffered<S>, name: &[u8]) -> Result<(), SinkFault>
    ensures text { WritesAll sink.old sink.new (escape name.now) result }
{
    let mut rest = name;
    while let Some(at) = next_special(rest) {
        let (plain, special) = rest.split_at(at);
        put_all(sink, plain)?;
        put_escape(sink, special[0])?;
        rest = &special[1..];
    }
    put_all(sink, rest)
}

// The place of the first byte that isn't its own escape, or `None` if the name is its own escape.
#[tactic(auto, using(crate::proofs::EscapeLemmas::escape_cut, crate::proofs::EscapeLemmas::differs_by))]
fn next_special(name: &[u8]) -> Option<usize>
    ensures within { IfSome result (λ at. at < length name.now) }
    ensures special { is_some result ≡ escape_differs name.now }
    ensures cut { MatchOption result (escape name.now ≡ name.now)
        (λ at. escape name.now ≡ take at name.now ++ escape (drop at name.now)) }
{
    memchr3(b'\\', b'\n', b'\r', name)
}

// Writes the escape of one byte.
fn put_escape<S: Sink>(sink: &mut Buffered<S>, byte: u8) -> Result<(), SinkFault>
    ensures { WritesAll sink.old sink.new (escape (byte ∷ [])) result }
{
    match byte {
        b'\\' => put_all(sink, b"\\\\"),
        b'\n' => put_all(sink, b"\\n"),
        b'\r' => put_all(sink, b"\\r"),
        other => put_all(sink, &[other]),
    }
}

/// Unescapes the bytes of the line from the place `from` on, which is at most its length. Returns true if they were the
/// escape of a name; they are now that name. Returns false if they were the escape of no name; what they are now is
/// unspecified. The bytes before that place are unchanged, and the line doesn't get longer.
pub fn unescape_in<A: Allocator>(line: &mut Vec<u8, A>, from: usize) -> bool
    requires from { from ≤ vec_len line.old }
    // For each name: the bytes were its escape if and only if the call returns true and leaves the name in their place.
    ensures name { (n : ByteString) → (drop from line.old.items ≡ escape n)
        ↔ (IsTrue result × (line.new.items ≡ take from line.old.items ++ n)) }
    ensures before { take from line.new.items ≡ take from line.old.items }
    ensures len { vec_len line.new ≤ vec_len line.old }
{
    match unescape(&mut line[from..]) {
        Some(len) => {
            line.truncate(from + len);
            true
        }
        None => false,
    }
}

// Unescapes in place: leaves the name at the front and returns its length, or `None` if the bytes are no escape.
fn unescape(bytes: &mut [u8]) -> Option<usize>
    ensures len { IfSome result (λ len. len ≤ length bytes.old) }
    ensures name { IfSome result (λ len. bytes.old ≡ escape (take len bytes.new)) }
    ensures no_name { IfNone result ((n : ByteString) → bytes.old ≢ escape n) }
{
    let mut read = 0;
    let mut write = 0;
    while read < bytes.len() {
        let (byte, width) = first_escaped(&bytes[read..])?;
        bytes[write] = byte;
        read += width;
        write += 1;
    }
    Some(write)
}

// The byte whose escape the bytes begin with, and the length of that escape, or `None` if they begin with no escape.
fn first_escaped(bytes: &[u8]) -> Option<(u8, usize)>
    ensures escape { IfSome result (λ r. bytes.now ≡ escape (r.0 ∷ []) ++ drop r.1 bytes.now) }
    ensures width { IfSome result (λ r. (0 < r.1) × (r.1 ≤ length bytes.now)) }
    ensures no_escape { IfNone result ((b : ℕ) (rest : ByteString)
        → bytes.now ≢ escape (b ∷ []) ++ rest) }
{
    match bytes {
        [b'\\', b'\\', ..] => Some((b'\\', 2)),
        [b'\\', b'n', ..] => Some((b'\n', 2)),
        [b'\\', b'r', ..] => Some((b'\r', 2)),
        [] | [b'\\' | b'\n' | b'\r', ..] => None,
        [byte, ..] => Some((*byte, 1)),
    }
}
