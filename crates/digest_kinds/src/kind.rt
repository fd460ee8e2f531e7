//! An algorithm with its digest's length.

ghost use Rattle.blake2b_core.specs.Digest.{IsDigestLen};
ghost use Rattle.digest_kinds.specs.{Algo.tag_of, Bytes.LIMIT};
ghost use Rattle.digest_kinds.specs.Kind.{blake2b_kind, full_kind, blake2b_of_bits, message_digest};
ghost use Rattle.std.specs.Prelude.{◌≡◌, ◌↔◌, ◌*◌, ◌<◌, length, IsSome, IfSome};

use crate::algo::Algo;
use crate::digest::Digest;
use crate::hashers::any_hasher::AnyHasher;
use crate::hashers::hasher::Hasher;
use std::marker::Model;
use thiserror::Error;

/// Why no BLAKE2b digest has this many bits: `TooLong` above 512, and otherwise `NotBytes` if the number isn't a
/// multiple of 8.
#[derive(Clone, Copy, Debug, PartialEq, Eq, Error)]
pub enum LengthFault {
    #[error("a BLAKE2b digest has at most 512 bits")]
    TooLong,
    #[error("a BLAKE2b digest has a multiple of 8 bits")]
    NotBytes,
}

/// An algorithm and the number of bytes of its digest: 1 to 64 for BLAKE2b, the full digest for the others.
#[derive(Clone, Copy, Debug, PartialEq, Eq, Hash)]
pub struct Kind {
    algo: Algo,
    len: usize,
}

impl Model for Kind {
    ghost use Rattle.digest_kinds.specs.{Algo.has_len, Kind.KindValue};
    ghost use Rattle.std.specs.Prelude.{IsTrue};

    ghost Value = { KindValue };

    ghost view = { λ k. record { algo = k.algo; len = k.len } };

    ghost inverse = { λ k. record { algo = k.algo; len = k.len } };

    ghost invariant = { λ k. IsTrue (has_len k.algo k.len) };
}

impl Kind {
    /// Returns the algorithm with its full digest.
    pub fn of(algo: Algo) -> Kind
        ensures kind { result ≡ full_kind algo }
    {
        Kind {
            algo,
            len: algo.full_len(),
        }
    }

    /// Returns BLAKE2b with a digest of this many bits (RFC 7693, 2.1); 0 means the full 512. Fails with `TooLong`
    /// above 512, and otherwise with `NotBytes` if the number isn't a multiple of 8.
    pub fn blake2b_bits(bits: u64) -> Result<Kind, LengthFault>
        ensures kind { result ≡ blake2b_of_bits bits }
    {
        if bits > 512 {
            return Err(LengthFault::TooLong);
        }
        if bits == 0 {
            return Ok(Kind::of(Algo::Blake2b));
        }
        if bits % 8 != 0 {
            return Err(LengthFault::NotBytes);
        }
        Ok(Kind::blake2b((bits / 8) as usize))
    }

    /// Returns BLAKE2b with a digest of `len` bytes, or `None` if and only if `len` is 0 or over 64.
    pub fn blake2b_bytes(len: usize) -> Option<Kind>
        ensures some { IsSome result ↔ IsDigestLen len }
        ensures value { IfSome result (λ kind. kind ≡ blake2b_kind len) }
    {
        if len == 0 || len > 64 {
            return None;
        }
        Some(Kind::blake2b(len))
    }

    /// BLAKE2b with a digest of `len` bytes.
    pub(crate) fn blake2b(len: usize) -> Kind
        requires { IsDigestLen len }
        ensures { result ≡ blake2b_kind len }
    {
        Kind {
            algo: Algo::Blake2b,
            len,
        }
    }

    /// Returns the algorithm.
    pub fn algo(self) -> Algo
        ensures algo { result ≡ self.algo }
    {
        self.algo
    }

    /// Computes the digest of a message, which must have fewer than [`LIMIT`](crate::LIMIT) bytes.
    pub fn digest(self, message: &[u8]) -> Digest
        requires { length message.now < LIMIT }
        ensures digest { result ≡ message_digest self message.now }
    {
        let mut hasher = AnyHasher::new(self);
        hasher.update(message);
        hasher.finish()
    }

    /// Returns the algorithm's tag, by which a tagged line names it.
    pub fn tag(self) -> &'static str
        ensures tag { result.now ≡ tag_of self.algo }
    {
        self.algo.tag()
    }

    /// Returns the number of bits of the digest.
    pub fn bits(self) -> u64
        ensures bits { result ≡ 8 * self.len }
    {
        8 * self.len as u64
    }

    /// Returns the number of bytes of the digest, from 1 to 64.
    pub fn len(self) -> usize
        ensures value { result ≡ self.len }
        ensures range { IsDigestLen result }
    {
        self.len
    }
}
