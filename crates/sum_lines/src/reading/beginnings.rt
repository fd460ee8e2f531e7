//! What a line begins with. Most bad lines don't begin as an entry does, so the rest of them isn't read.

ghost use Rattle.digest_kinds.specs.Bytes.{ByteString};
ghost use Rattle.std.specs.Prelude.{◌≡◌, IfNone, IfSome, None};
ghost use Rattle.sum_lines.specs.grammar.LineParts.{plain_parts, tag_in, tagged_parts};
ghost use Rattle.sum_lines.specs.private.Beginnings.{BeginsWithDigits, IsReadAs, IsFirstBlank, EndsDigits, IsFront};

use crate::reading::line_parts::{Front, is_blank};
use digest_kinds::{Algo, Algos, Kind};
use memchr::memchr2;

// The number of digits in the longest digest.
const MOST_DIGITS: usize = 128;

/// What a line begins with after its blanks and its backslash, if it can be an entry.
#[derive(Clone, Copy)]
pub(crate) enum Beginning {
    /// The algorithm's tag.
    Tag(Algo),
    /// This many bytes, and then a blank. For BLAKE2b they are all the bytes before the first blank; for any other
    /// algorithm, they are as many as its digests have digits.
    Digits(Algo, usize),
}

/// What a line of these algorithms begins with. Returns `None` only if the line is neither tagged nor plain. This is a
/// separate call, so that an ignored line needs no stack space for it.
#[inline(never)]
#[tactic(auto, unfolding(crate::specs::grammar::LineParts::plain_parts, crate::specs::grammar::LineParts::tagged_parts))]
pub(crate) fn find_beginning(algos: Algos, line: &[u8], front: Front) -> Option<Beginning>
    requires { IsFront line.now front }

    // A line without a beginning is no entry; with one it is read as that says.
    ensures not_tagged { IfNone result (None ≡ tagged_parts algos line.now) }
    ensures not_plain { IfNone result (None ≡ plain_parts algos line.now) }
    ensures read_as { IfSome result (IsReadAs algos line.now) }
{
    let text = front.text_of(line);
    if let Some(algo) = tag_in(algos, text) {
        return Some(Beginning::Tag(algo));
    }
    match algos {
        Algos::One(algo) => Some(Beginning::Digits(algo, digits_end(algo, text)?)),
        Algos::Any => None,
    }
}

// The one of these algorithms whose tag begins the text.
#[tactic(auto, using(digest_kinds::proofs::TagLemmas::search_is))]
fn tag_in(algos: Algos, text: &[u8]) -> Option<Algo>
    ensures { result ≡ tag_in algos text.now }
{
    // No tag begins with any other letter.
    if !matches!(text, [b'M' | b'S' | b'B', ..]) {
        return None;
    }
    match algos {
        Algos::One(algo) if text.starts_with(algo.tag().as_bytes()) => Some(algo),
        Algos::One(_) => None,
        Algos::Any => Algo::of_tag_prefix(text),
    }
}

// The place of the blank after the digits, if something follows the blank. Returns `None` only if no plain line has
// this text. The digits themselves aren't looked at.
fn digits_end(algo: Algo, text: &[u8]) -> Option<usize>
    ensures not_plain { IfNone result ((d : ByteString) → ¬ BeginsWithDigits algo text.now d) }
    ensures end { IfSome result (EndsDigits algo text.now) }
{
    let at = digits_len(algo, text)?;
    match text.get(at) {
        Some(blank) if is_blank(*blank) && at + 1 < text.len() => Some(at),
        _ => None,
    }
}

// How many digits the text has if it is that of a plain line. Returns `None` only if no plain line has this text.
#[tactic(auto, using(crate::proofs::ScanLemmas::search_none, crate::proofs::ScanLemmas::search_some, crate::proofs::ScanLemmas::fixed_len))]
fn digits_len(algo: Algo, text: &[u8]) -> Option<usize>
    ensures not_plain { IfNone result ((d : ByteString) → ¬ BeginsWithDigits algo text.now d) }
    ensures end { IfSome result (IsFirstBlank algo text.now) }
{
    match algo {
        Algo::Blake2b => memchr2(b' ', b'\t', &text[..text.len().min(MOST_DIGITS + 1)]),
        _ => Some(2 * Kind::of(algo).len()),
    }
}
