//! Plain lines: digits, a blank, a tail.

ghost use Rattle.digest_kinds.specs.{Algo.has_len, Bytes.after_while};
ghost use Rattle.std.specs.Option.{option_map};
ghost use Rattle.std.specs.Prelude.{◌≡◌, ◌≤◌, IfSome, if◌then◌else◌, length, Some, None};
ghost use Rattle.sum_lines.specs.grammar.{LineParts.mark_and_rest, LineParts.plain_parts, Shapes.is_blank};
ghost use Rattle.sum_lines.specs.private.Beginnings.{EndsDigits, IsFront, line_parts};

use crate::reading::line_parts::{Front, LineParts};
use digest_kinds::{Algo, Algos, Digest, Kind};

/// Reads a plain line of this algorithm, in whose text the blank after the digits is at `at`. Returns `None` if the
/// line isn't plain.
#[tactic(auto, using(crate::proofs::ScanLemmas::not_plain))]
pub(crate) fn plain(algo: Algo, line: &[u8], front: Front, at: usize) -> Option<LineParts>
    requires front { IsFront line.now front }
    requires end { EndsDigits algo (mark_and_rest (after_while is_blank line.now)).1 at }

    // The parts that were found are the line's.
    ensures parts { option_map (line_parts line.now) result
        ≡ plain_parts (Algos.One algo) line.now }
    ensures within { IfSome result (λ found. found.stop ≤ length line.now) }
{
    let text = front.text_of(line);
    let kind = kind_of_len(algo, at / 2)?;
    // The digits are decoded last, since that costs the most.
    let digest = Digest::from_hex(&text[..at])?;
    let tail = &text[at + 1..];
    Some(LineParts {
        escaped: front.escaped,
        kind,
        digest,
        start: line.len() - tail.len(),
        stop: line.len(),
    })
}

// The algorithm's kind with digests of this length.
fn kind_of_len(algo: Algo, len: usize) -> Option<Kind>
    ensures { result
        ≡ (if has_len algo len then Some (record { algo = algo; len = len }) else None) }
{
    let kind = match algo {
        Algo::Blake2b if 1 <= len && len <= 64 => Kind::blake2b_bits(8 * len as u64).ok()?,
        _ => Kind::of(algo),
    };
    if kind.len() == len { Some(kind) } else { None }
}
