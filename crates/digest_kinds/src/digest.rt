//! A digest of any kind, and its digits.

ghost use Rattle.blake2b_core.specs.Digest.{IsDigestLen};
ghost use Rattle.digest_kinds.specs.Digest.{IsDigits};
ghost use Rattle.hex.specs.Hex.{decode_of, encode_lower};
ghost use Rattle.std.specs.Prelude.{◌≡◌, ◌*◌, ◌++◌, ◌≤◌, ◌↔◌, IsTrue, drop, length, IsSome, IfSome, Ok, IsOk, IfOk};

use std::cmp::Ordering;
use std::convert::AsSlice;
use std::hash::{Hash, Hasher as StdHasher};
use std::marker::Model;
use std::str::FromStr;
use std::{fmt, str};
use thiserror::Error;

/// A digest, of 1 to 64 bytes.
#[derive(Clone, Debug, Drop)]
pub struct Digest {
    bytes: [u8; 64],
    len: usize,
}

impl Model for Digest {
    ghost use Rattle.blake2b_core.specs.Digest.{IsDigestLen};
    ghost use Rattle.digest_kinds.specs.Bytes.{ByteString};
    ghost use Rattle.std.specs.Prelude.{take};

    ghost Value = { ByteString };

    ghost view = { λ d. take d.len d.bytes };

    ghost invariant = { λ d. IsDigestLen d.len };
}

impl Digest {
    /// The digest of these bytes.
    pub(crate) fn from_bytes(digest: &[u8]) -> Digest
        requires { IsDigestLen (length digest.now) }
        ensures { result ≡ digest.now }
    {
        let mut bytes = [0; 64];
        bytes[..digest.len()].copy_from_slice(digest);
        Digest {
            bytes,
            len: digest.len(),
        }
    }

    /// Returns the digest that the digits spell, in either case, or `None` if and only if the text isn't an even number
    /// of hexadecimal digits, from 2 to 128.
    pub fn from_hex(text: &[u8]) -> Option<Digest>
        ensures value { IfSome result (λ digest. decode_of text.now ≡ Ok digest) }
        ensures found { IsSome result ↔ IsDigits text.now }
    {
        let len = text.len() / 2;
        if len < 1 || len > 64 {
            return None;
        }
        let mut bytes = [0; 64];
        hex::decode_to_slice(text, &mut bytes[..len]).ok()?;
        Some(Digest { bytes, len })
    }

    /// Returns the digest's bytes, 1 to 64 of them.
    pub fn as_slice(&self) -> &[u8]
        ensures value { result.now ≡ self.now }
        ensures size { IsDigestLen (length self.now) }
    {
        &self.bytes[..self.len]
    }

    /// Returns whether the two digests have the same bytes.
    pub fn same(&self, other: &Digest) -> bool
        ensures same_bytes { IsTrue result ↔ (self.now ≡ other.now) }
    {
        self == other
    }

    /// Writes the digits, in lower case, to the front of `out`, and returns their number. The rest of `out` is
    /// unchanged.
    pub fn hex_into(&self, out: &mut [u8; 128]) -> usize
        ensures number { result ≡ 2 * length self.now }
        ensures at_most { result ≤ 128 }
        ensures digits { out.new ≡ encode_lower self.now ++ drop (2 * length self.now) out.old }
    {
        let bytes = self.as_slice();
        let digits = 2 * bytes.len();
        hex::encode_to_slice(bytes, &mut out[..digits]).unwrap();
        digits
    }
}

/// The text isn't an even number of hexadecimal digits, from 2 to 128.
#[derive(Clone, Copy, Debug, PartialEq, Eq, Error)]
#[error("not 2 to 128 hexadecimal digits of an even count")]
pub struct NotDigits;

impl FromStr for Digest {
    type Err = NotDigits;

    ghost from_str_gives = { λ s r. IfOk r (λ digest. decode_of s ≡ Ok digest)
        × (IsOk r ↔ IsDigits s) };

    /// Returns the digest that the digits spell, as [`Digest::from_hex`] does.
    fn from_str(s: &str) -> Result<Digest, NotDigits> {
        Digest::from_hex(s.as_bytes()).ok_or(NotDigits)
    }
}

impl PartialEq for Digest {
    ghost use Rattle.std.proofs.Common.{rules};
    ghost use Rattle.std.specs.{Cmp.Lexicographic.pointwise, Cmp.Rules.comparing, Prelude.◌==◌};

    ghost eq = { pointwise ◌==◌ };

    ghost laws = { Prim.search (comparing, rules) };

    fn eq(&self, other: &Digest) -> bool {
        self.as_slice() == other.as_slice()
    }
}

impl Eq for Digest {
    ghost use Rattle.std.{proofs.Common.rules, specs.Cmp.Rules.comparing};

    ghost laws = { Prim.search (comparing, rules) };
}

impl PartialOrd for Digest {
    ghost use Rattle.std.specs.Cmp.Lexicographic.{slice_cmp, texts_po};
    ghost use Rattle.std.specs.{Ordering.nat_cmp, Prelude.Some};

    ghost partial_cmp = { λ d e. Some (slice_cmp nat_cmp d e) };

    ghost laws = { texts_po };

    fn partial_cmp(&self, other: &Digest) -> Option<Ordering> {
        Some(self.cmp(other))
    }
}

impl Ord for Digest {
    ghost use Rattle.std.specs.Cmp.Lexicographic.{nat_list_cmp_total, slice_cmp, texts_ties};
    ghost use Rattle.std.specs.{Ordering.nat_cmp, Prelude.refl};

    ghost cmp = { slice_cmp nat_cmp };

    ghost total = { nat_list_cmp_total };

    ghost matches_partial_cmp = { λ _ _. refl };

    ghost matches_eq = { texts_ties };

    /// Compares the bytes lexicographically.
    fn cmp(&self, other: &Digest) -> Ordering {
        self.as_slice().cmp(other.as_slice())
    }
}

impl Hash for Digest {
    ghost use Rattle.std.{proofs.Common.rules, specs.Cmp.Rules.hashing};
    ghost use Rattle.std.specs.Hash as fed;

    ghost hash_input = { fed.slice fed.u8 };

    ghost respects_eq = { Prim.search (hashing, rules) };

    fn hash<H: StdHasher>(&self, state: &mut H) {
        self.as_slice().hash(state);
    }
}

impl AsSlice<u8> for Digest {
    ghost items = { λ d. d };

    /// Returns the digest's bytes. The kit has this trait in place of `AsRef<[u8]>`.
    fn as_slice(&self) -> &[u8] {
        Digest::as_slice(self)
    }
}

impl fmt::Display for Digest {
    ghost use Rattle.std.specs.{Fmt.styled_text, Prelude.Some};

    ghost output = { λ d. Some (encode_lower d) };

    ghost styled_output = { λ d spec. Some (styled_text spec (encode_lower d)) };

    /// Writes the digits, in lower case, padded as a text is.
    fn fmt<W: fmt::Write>(&self, f: &mut fmt::Formatter<W>) -> fmt::Result {
        let mut digits = [0; 128];
        let count = self.hex_into(&mut digits);
        let Ok(text) = str::from_utf8(&digits[..count]) else {
            unreachable!();
        };
        f.pad(text)
    }
}
