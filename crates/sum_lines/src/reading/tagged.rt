//! Tagged lines: a tag, a name in parentheses, `=`, digits.

ghost use Rattle.digest_kinds.specs.Bytes.{after_while};
ghost use Rattle.std.specs.Option.{option_copied, option_map, option_or};
ghost use Rattle.std.specs.Prelude.{◌≡◌, ◌≤◌, codes, length, IfSome, Some};
ghost use Rattle.sum_lines.specs.grammar.LineParts.{mark_and_rest, strip_prefix, tag_in, tagged_parts};
ghost use Rattle.sum_lines.specs.{grammar.Shapes.is_blank, private.Beginnings.IsFront, private.Beginnings.line_parts};

use crate::reading::line_parts::{Front, LineParts, after_prefix, skip_blanks, split_at_last};
use digest_kinds::{Algo, Algos, Digest, Kind};

/// Reads a line whose text begins with this algorithm's tag. Returns `None` if the line isn't tagged.
#[tactic(auto, using(crate::proofs::ScanLemmas::two_digits), unfolding(crate::specs::grammar::LineParts::tagged_parts))]
pub(crate) fn tagged(algo: Algo, line: &[u8], front: Front) -> Option<LineParts>
    requires front { IsFront line.now front }
    requires tag { tag_in (Algos.One algo)
        (mark_and_rest (after_while is_blank line.now)).1 ≡ Some algo }

    // The parts that were found are the line's.
    ensures parts { option_map (line_parts line.now) result
        ≡ tagged_parts (Algos.One algo) line.now }
    ensures within { IfSome result (λ found. found.stop ≤ length line.now) }
{
    let text = front.text_of(line);
    let Some(named) = Kind::of_tag_prefix(algo, text) else {
        return None;
    };
    let kind = named.kind;
    let inner = past_parenthesis(named.rest)?;
    // The name may contain `)`. What follows the name can't contain one.
    let (raw, after_name) = split_at_last(b')', inner)?;
    let digits = skip_blanks(after_prefix(b"=", skip_blanks(after_name))?);
    // The digits are decoded only if they are as many as the kind has.
    if digits.len() != 2 * kind.len() {
        return None;
    }
    let digest = Digest::from_hex(digits)?;
    if raw.is_empty() {
        return None;
    }
    let start = line.len() - inner.len();
    Some(LineParts {
        escaped: front.escaped,
        kind,
        digest,
        start,
        stop: start + raw.len(),
    })
}

// What follows the opening parenthesis, which a space may precede.
fn past_parenthesis(s: &[u8]) -> Option<&[u8]>
    ensures { option_copied result
        ≡ option_or (strip_prefix (codes " (") s.now) (strip_prefix (codes "(") s.now) }
{
    after_prefix(b" (", s).or(after_prefix(b"(", s))
}
