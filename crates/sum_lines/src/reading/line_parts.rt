//! The steps by which a line is read from its start.

ghost use Rattle.digest_kinds.specs.Bytes.{after_while};
ghost use Rattle.std.specs.{List.prefix_len, Option.option_copied, Option.option_map, Path.rsplit_once};
ghost use Rattle.std.specs.Prelude.{◌≡◌, ◌≤◌, length};
ghost use Rattle.sum_lines.specs.grammar.{LineParts.strip_prefix, LineParts.mark_and_rest, Shapes.is_blank};

use digest_kinds::{Digest, Kind};
use memchr::memrchr;

/// The parts of a line of either shape. The text is the range `start..stop` of the line: a tagged line's raw name, or a
/// plain line's tail.
#[derive(Debug, Drop)]
pub(crate) struct LineParts {
    pub(crate) escaped: bool,
    pub(crate) kind: Kind,
    pub(crate) digest: Digest,
    pub(crate) start: usize,
    pub(crate) stop: usize,
    ghost size: { length digest ≡ kind.len },
    ghost ordered: { start ≤ stop },
}

/// Whether the byte is a space or a tab.
pub(crate) fn is_blank(byte: u8) -> bool
    ensures { result ≡ is_blank byte }
{
    matches!(byte, b' ' | b'\t')
}

/// What precedes a line's text: leading blanks and an optional backslash.
#[derive(Clone, Copy)]
pub(crate) struct Front {
    /// Whether there is a backslash.
    pub(crate) escaped: bool,
    /// The place of the text.
    pub(crate) start: usize,
}

impl Front {
    ghost use Rattle.digest_kinds.specs.Bytes.{after_while};
    ghost use Rattle.std.specs.Prelude.{◌≡◌};
    ghost use Rattle.sum_lines.specs.grammar.{LineParts.mark_and_rest, Shapes.is_blank};
    ghost use Rattle.sum_lines.specs.private.Beginnings.{IsFront};

    /// What precedes the line's text.
    pub(crate) fn of(line: &[u8]) -> Front
        ensures { IsFront line.now result }
    {
        let start = blanks(line);
        match &line[start..] {
            [b'\\', ..] => Front {
                escaped: true,
                start: start + 1,
            },
            _ => Front {
                escaped: false,
                start,
            },
        }
    }

    /// The text of the line that has this front.
    #[tactic(auto, using(std::proofs::lemmas::List::take_rest))]
    pub(crate) fn text_of(self, line: &[u8]) -> &[u8]
        requires { IsFront line.now self }
        ensures { result.now ≡ (mark_and_rest (after_while is_blank line.now)).1 }
    {
        &line[self.start..]
    }
}

/// The bytes without their leading blanks.
pub(crate) fn skip_blanks(s: &[u8]) -> &[u8]
    ensures { result.now ≡ after_while is_blank s.now }
{
    &s[blanks(s)..]
}

// The number of blanks that the bytes begin with.
fn blanks(s: &[u8]) -> usize
    ensures value { result ≡ prefix_len is_blank s.now }
    ensures within { result ≤ length s.now }
{
    s.iter().take_while(|byte| is_blank(**byte)).count()
}

/// What follows the text, if the bytes begin with it.
#[tactic(auto, using(crate::proofs::ScanLemmas::after_is, std::proofs::lemmas::Slice::Eq::strip_prefix_is))]
pub(crate) fn after_prefix<'a>(text: &[u8], s: &'a [u8]) -> Option<&'a [u8]>
    ensures { option_copied result ≡ strip_prefix text.now s.now }
{
    s.strip_prefix(text)
}

/// What precedes the last occurrence of this byte, and what follows it.
#[tactic(auto, using(crate::proofs::PrefixLemmas::last_split, std::proofs::lemmas::List::take_rest))]
pub(crate) fn split_at_last(byte: u8, s: &[u8]) -> Option<(&[u8], &[u8])>
    ensures { option_map (λ p. (p.0.now, p.1.now)) result ≡ rsplit_once byte s.now }
{
    let at = memrchr(byte, s)?;
    Some((&s[..at], &s[at + 1..]))
}
