//! The algorithms and their tags.

ghost use Rattle.digest_kinds.specs.Algo.{all_algos, full_len_of, tag_of, BeginsWithTag};
ghost use Rattle.std.specs.{Fmt.styled_text, List.starts_with};
ghost use Rattle.std.specs.Prelude.{◌≡◌, ◌==◌, Some, IfSome, Ok, IfOk, find};

use std::fmt;
use std::str::FromStr;
use thiserror::Error;

/// A digest algorithm.
#[derive(Clone, Copy, Debug, PartialEq, Eq, Hash)]
pub enum Algo {
    /// MD5 (RFC 1321), of 16 bytes.
    Md5,
    /// SHA-1 (FIPS 180-4), of 20 bytes.
    Sha1,
    /// SHA-224 (FIPS 180-4), of 28 bytes.
    Sha224,
    /// SHA-256 (FIPS 180-4), of 32 bytes.
    Sha256,
    /// SHA-384 (FIPS 180-4), of 48 bytes.
    Sha384,
    /// SHA-512 (FIPS 180-4), of 64 bytes.
    Sha512,
    /// BLAKE2b without a key (RFC 7693), of 1 to 64 bytes.
    Blake2b,
}

/// The algorithms that a manifest may use.
#[derive(Clone, Copy, Debug, PartialEq, Eq, Hash)]
pub enum Algos {
    /// This one alone.
    One(Algo),
    /// Any of them.
    Any,
}

impl Algo {
    /// All algorithms, in the order of the variants.
    pub const ALL: [Algo; 7] = [
        Algo::Md5,
        Algo::Sha1,
        Algo::Sha224,
        Algo::Sha256,
        Algo::Sha384,
        Algo::Sha512,
        Algo::Blake2b,
    ];

    /// Returns the algorithm whose tag is a prefix of the bytes, or `None` if there is none. No tag is a prefix of
    /// another, so there is at most one ([`tags_apart`](crate::laws::tags_apart)).
    #[tactic(auto, using(crate::proofs::TagLemmas::found_tagged))]
    pub fn of_tag_prefix(bytes: &[u8]) -> Option<Algo>
        // The returned algorithm's tag is a prefix of the bytes, and if an algorithm's tag is, that algorithm is
        // returned.
        ensures tagged { IfSome result (λ a. BeginsWithTag bytes.now a) }
        ensures found { (a : Algo) → BeginsWithTag bytes.now a → result ≡ Some a }
    {
        Algo::first_begun(bytes)
    }

    // The first algorithm whose tag is a prefix of the bytes.
    fn first_begun(bytes: &[u8]) -> Option<Algo>
        ensures { result ≡ find (λ a. starts_with ◌==◌ bytes.now (tag_of a)) all_algos }
    {
        Self::ALL
            .iter()
            .copied()
            .find(|algo| bytes.starts_with(algo.tag().as_bytes()))
    }

    /// Returns the tag, by which a tagged line names the algorithm.
    pub fn tag(self) -> &'static str
        ensures tag { result.now ≡ tag_of self }
    {
        self.facts().0
    }

    /// The number of bytes of the full digest.
    pub(crate) fn full_len(self) -> usize
        ensures { result ≡ full_len_of self }
    {
        self.facts().1
    }

    // The tag, and the number of bytes of the full digest.
    fn facts(self) -> (&'static str, usize)
        ensures tag { result.0.now ≡ tag_of self }
        ensures full_len { result.1 ≡ full_len_of self }
    {
        match self {
            Algo::Md5 => ("MD5", 16),
            Algo::Sha1 => ("SHA1", 20),
            Algo::Sha224 => ("SHA224", 28),
            Algo::Sha256 => ("SHA256", 32),
            Algo::Sha384 => ("SHA384", 48),
            Algo::Sha512 => ("SHA512", 64),
            Algo::Blake2b => ("BLAKE2b", 64),
        }
    }
}

/// A text that isn't the tag of an algorithm.
#[derive(Clone, Copy, Debug, PartialEq, Eq, Error)]
#[error("not the tag of an algorithm")]
pub struct UnknownTag;

impl FromStr for Algo {
    ghost use Rattle.digest_kinds.specs.declared.algo.Algo.{Algo};

    type Err = UnknownTag;

    // The text is the tag of the returned algorithm, and for each tag its algorithm is returned.
    ghost from_str_gives = { λ s r. IfOk r (λ a. s ≡ tag_of a) × ((a : Algo) → s ≡ tag_of a → r ≡ Ok a) };

    /// Returns the algorithm with this tag.
    fn from_str(s: &str) -> Result<Algo, UnknownTag> {
        match Algo::of_tag_prefix(s.as_bytes()) {
            Some(algo) if algo.tag() == s => Ok(algo),
            _ => Err(UnknownTag),
        }
    }
}

impl fmt::Display for Algo {
    ghost output = { λ a. Some (tag_of a) };

    ghost styled_output = { λ a spec. Some (styled_text spec (tag_of a)) };

    /// Writes the tag, padded as a text is.
    fn fmt<W: fmt::Write>(&self, f: &mut fmt::Formatter<W>) -> fmt::Result {
        f.pad(self.tag())
    }
}
