//! The texts that name kinds, such as `SHA256` and `BLAKE2b-256`.

ghost use Rattle.digest_kinds.specs.{Algo.BeginsWithTag, Algo.tag_of, Bytes.after_while, Kind.KindValue};
ghost use Rattle.digest_kinds.specs.KindText.{NamesKind, kind_and_rest, kind_of_digits, kind_text, short_number};
ghost use Rattle.digest_kinds.specs.declared.kind_text.TheConstants.{LONGEST_KIND_TEXT};
ghost use Rattle.std.specs.{Char.is_ascii_digit, Fmt.styled_text, List.AllPass, List.prefix_len, Option.option_map};
ghost use Rattle.std.specs.Prelude.{◌≡◌, ◌≤◌, ◌++◌, codes, decimal, length, take, drop, take_while, Some, Ok, IfOk};

use crate::algo::Algo;
use crate::kind::Kind;
use itoa::Buffer;
use std::str::FromStr;
use std::{fmt, str};
use thiserror::Error;

/// The length of the longest text of a kind, such as `BLAKE2b-256`.
pub const LONGEST_KIND_TEXT: usize = 11;

/// A kind whose text some bytes begin with, and what follows that text.
#[derive(Clone, Copy, Debug)]
pub struct KindPrefix<'a> {
    /// The kind.
    pub kind: Kind,
    /// The bytes after the text that names it.
    pub rest: &'a [u8],
}

impl Kind {
    /// Returns the text that names the kind: the algorithm's tag and, for a BLAKE2b kind of fewer than 64 bytes, a `-`
    /// and its bits, as in `BLAKE2b-256`. It may be in `buffer`, whose previous content doesn't matter.
    #[tactic(auto, using(crate::proofs::KindTextLemmas::length_bits))]
    pub fn text_into(self, buffer: &mut [u8; LONGEST_KIND_TEXT]) -> &str
        ensures text { result.now ≡ kind_text self }
    {
        if self.len() == self.algo().full_len() {
            return self.tag();
        }
        let end = put_bits(self.bits(), buffer);
        let Ok(text) = str::from_utf8(&buffer[..end]) else {
            unreachable!();
        };
        text
    }

    /// Returns the kind whose text the bytes begin with, and what follows that text. The bytes must begin with the
    /// algorithm's tag. Returns `None` if and only if a `-` follows BLAKE2b's tag, and no number of bits of a BLAKE2b
    /// digest follows the `-`.
    pub fn of_tag_prefix(algo: Algo, bytes: &[u8]) -> Option<KindPrefix<'_>>
        requires { BeginsWithTag bytes.now algo }
        ensures prefix { option_map (λ w. (w.kind, w.rest.now)) result
            ≡ kind_and_rest algo (drop (length (tag_of algo)) bytes.now) }
    {
        let rest = &bytes[algo.tag().len()..];
        match algo {
            Algo::Blake2b => blake2b_prefix(rest),
            _ => {
                let kind = Kind::of(algo);
                Some(KindPrefix { kind, rest })
            }
        }
    }
}

// Writes BLAKE2b's tag with these bits to the front of the buffer, and returns how long it is.
fn put_bits(bits: u64, buffer: &mut [u8; LONGEST_KIND_TEXT]) -> usize
    requires { length (codes "BLAKE2b-" ++ decimal bits) ≤ LONGEST_KIND_TEXT }
    ensures text { take result buffer.new ≡ codes "BLAKE2b-" ++ decimal bits }
    ensures within { result ≤ LONGEST_KIND_TEXT }
{
    let mut digits = Buffer::new();
    let digits = digits.format(bits).as_bytes();
    let end = 8 + digits.len();
    buffer[..8].copy_from_slice(b"BLAKE2b-");
    buffer[8..end].copy_from_slice(digits);
    end
}

// As `Kind::of_tag_prefix` for BLAKE2b, where the bytes are what follows its tag.
fn blake2b_prefix(bytes: &[u8]) -> Option<KindPrefix<'_>>
    ensures { option_map (λ w. (w.kind, w.rest.now)) result ≡ kind_and_rest Algo.Blake2b bytes.now }
{
    match bytes {
        [b'-', text @ ..] => {
            let (digits, rest) = split_digits(text);
            let kind = kind_of_digits(digits)?;
            Some(KindPrefix { kind, rest })
        }
        _ => {
            let kind = Kind::of(Algo::Blake2b);
            Some(KindPrefix { kind, rest: bytes })
        }
    }
}

// The digits at the front of the bytes, and what follows them.
#[tactic(auto, using(crate::proofs::PrefixLemmas::prefix_passes))]
fn split_digits(bytes: &[u8]) -> (&[u8], &[u8])
    ensures digits { result.0.now ≡ take_while is_ascii_digit bytes.now }
    ensures rest { result.1.now ≡ after_while is_ascii_digit bytes.now }
    ensures are { AllPass is_ascii_digit result.0.now }
{
    bytes.split_at(count_digits(bytes))
}

// How many digits the bytes begin with.
fn count_digits(bytes: &[u8]) -> usize
    ensures value { result ≡ prefix_len is_ascii_digit bytes.now }
    ensures within { result ≤ length bytes.now }
{
    bytes
        .iter()
        .take_while(|byte| byte.is_ascii_digit())
        .count()
}

// BLAKE2b with as many bits as the digits say, a multiple of 8 up to 512.
fn kind_of_digits(digits: &[u8]) -> Option<Kind>
    requires { AllPass is_ascii_digit digits.now }
    ensures { result ≡ kind_of_digits digits.now }
{
    Kind::blake2b_bits(short_number(digits)?).ok()
}

// The number that one to three digits without a leading zero write.
fn short_number(digits: &[u8]) -> Option<u64>
    requires { AllPass is_ascii_digit digits.now }
    ensures { result ≡ short_number digits.now }
{
    match digits {
        [b'0', ..] => None,
        [a] => Some((*a - b'0') as u64),
        [a, b] => Some((*a - b'0') as u64 * 10 + (*b - b'0') as u64),
        [a, b, c] => {
            Some(((*a - b'0') as u64 * 10 + (*b - b'0') as u64) * 10 + (*c - b'0') as u64)
        }
        _ => None,
    }
}

/// A text that names no kind.
#[derive(Clone, Copy, Debug, PartialEq, Eq, Error)]
#[error("not the tag of an algorithm, or of BLAKE2b with its bits")]
pub struct UnknownKind;

impl FromStr for Kind {
    type Err = UnknownKind;

    // The text names the returned kind, and for each text that names a kind, that kind is returned.
    ghost from_str_gives = { λ s r. IfOk r (NamesKind s)
        × ((kind : KindValue) → NamesKind s kind → r ≡ Ok kind) };

    /// Returns the kind that the text names: a tag such as `SHA256`, or BLAKE2b with its bits, as in `BLAKE2b-256`.
    /// `BLAKE2b` and `BLAKE2b-512` name the same kind, as in tagged lines. Parsing the text that `Display` writes gives
    /// the kind back ([`texts_name_kinds`](crate::laws::texts_name_kinds)).
    fn from_str(s: &str) -> Result<Kind, UnknownKind> {
        let Some(algo) = Algo::of_tag_prefix(s.as_bytes()) else {
            return Err(UnknownKind);
        };
        let Some(prefix) = Kind::of_tag_prefix(algo, s.as_bytes()) else {
            return Err(UnknownKind);
        };
        if !prefix.rest.is_empty() {
            return Err(UnknownKind);
        }
        Ok(prefix.kind)
    }
}

impl fmt::Display for Kind {
    ghost output = { λ kind. Some (kind_text kind) };

    ghost styled_output = { λ kind spec. Some (styled_text spec (kind_text kind)) };

    /// Writes the text that names the kind, padded as a text is.
    fn fmt<W: fmt::Write>(&self, f: &mut fmt::Formatter<W>) -> fmt::Result {
        f.pad(self.text_into(&mut [0; LONGEST_KIND_TEXT]))
    }
}
