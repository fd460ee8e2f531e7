//! Hashers for MD5, SHA-1 and SHA-2, which count the bytes of the message beside the state of the digest.

ghost use Rattle.digest_kinds.specs.{Algo.full_len_of, Bytes.ByteString, Kind.message_digest, Kind.full_kind};
ghost use Rattle.digest_kinds.specs.declared.algo.Algo.{Algo};
ghost use Rattle.md5.specs.Md5.{Holds as HoldsMd5};
ghost use Rattle.sha1.specs.Sha1.{Holds as HoldsSha1};
ghost use Rattle.std.specs.Prelude.{◌≡◌, ℕ, [], ◌++◌, length};
ghost use Rattle.digest_kinds.specs.declared.algo.Algo.TheVariants as algos;

use crate::algo::Algo;
use crate::digest::Digest;
use crate::hashers::hasher::Hasher;
use crate::kind::Kind;
use std::marker::Model;

/// The state of the computation of a full digest.
pub trait DigestState: Drop {
    /// The algorithm.
    const ALGO: Algo;

    ghost ALGO: { Algo };

    // The state may have taken this message.
    ghost holds: { Self → ByteString → Type 0 };

    /// Creates the state of the empty message.
    fn new() -> Self
        ensures holds { holds result [] };

    /// Takes the message's next piece.
    fn update(&mut self, piece: &[u8])
        ensures holds { (m : ByteString) → holds self.old m → holds self.new (m ++ piece.now) };

    /// Returns the digest of the message that was taken.
    fn finish(self) -> Digest
        ensures value { (m : ByteString) → holds self m → result ≡ message_digest (full_kind ALGO) m }
        ensures len { length result ≡ full_len_of ALGO };
}

/// A hasher that counts the bytes which the state of its digest takes.
#[derive(Clone, Debug, Drop)]
pub struct CountingHasher<D> {
    inner: D,
    taken: u64,
}

impl<D> Model for CountingHasher<D> {
    // The state, and the number of bytes that it has taken.
    ghost Value = { D × ℕ };

    ghost view = { λ h. (h.inner, h.taken) };
}

impl<D: DigestState> CountingHasher<D> {
    /// Creates a hasher of the empty message.
    pub fn new() -> Self
        ensures holds { ⟦<CountingHasher<D> as Hasher>⟧.holds result [] }
    {
        CountingHasher {
            inner: D::new(),
            taken: 0,
        }
    }
}

impl<D: DigestState> Hasher for CountingHasher<D> {
    ghost holds = { λ h m. D.holds h.0 m × (h.1 ≡ length m) };

    ghost kind_of = { λ _. full_kind D.ALGO };

    ghost taken_of = { λ h. h.1 };

    ghost counts = { λ h m held. held.1 };

    fn kind(&self) -> Kind {
        Kind::of(D::ALGO)
    }

    fn taken(&self) -> u64 {
        self.taken
    }

    fn update(&mut self, piece: &[u8]) {
        self.taken += piece.len() as u64;
        self.inner.update(piece);
    }

    fn finish(self) -> Digest {
        let CountingHasher { inner, taken: _ } = self;
        inner.finish()
    }
}

/// Computes MD5 (RFC 1321).
pub type Md5Hasher = CountingHasher<md5::Md5>;

impl DigestState for md5::Md5 {
    ghost ALGO = { algos.Md5 };

    const ALGO: Algo = Algo::Md5;

    ghost holds = { HoldsMd5 };

    fn new() -> Self {
        <md5::Md5 as md5::Digest>::new()
    }

    fn update(&mut self, piece: &[u8]) {
        md5::Digest::update(self, piece);
    }

    fn finish(self) -> Digest {
        Digest::from_bytes(&md5::Digest::finalize(self))
    }
}

/// Computes SHA-1 (FIPS 180-4, 6.1).
pub type Sha1Hasher = CountingHasher<sha1::Sha1>;

impl DigestState for sha1::Sha1 {
    ghost ALGO = { algos.Sha1 };

    const ALGO: Algo = Algo::Sha1;

    ghost holds = { HoldsSha1 };

    fn new() -> Self {
        sha1::Sha1::new()
    }

    fn update(&mut self, piece: &[u8]) {
        sha1::Sha1::update(self, piece);
    }

    fn finish(self) -> Digest {
        Digest::from_bytes(&sha1::Sha1::finalize(self))
    }
}

/// The state of the computation of a SHA-2 digest.
pub trait Sha2Digest: sha2::Digest {
    /// The algorithm.
    const SHA2: Algo;

    ghost SHA2: { Algo };

    /// Returns the digest of the message that was taken.
    fn finish_sha2(self) -> Digest
        ensures value { (m : ByteString) → Self.holds self m → result ≡ message_digest (full_kind SHA2) m }
        ensures len { length result ≡ full_len_of SHA2 };
}

impl<D: Sha2Digest> DigestState for D {
    ghost ALGO = { D.SHA2 };

    const ALGO: Algo = D::SHA2;

    ghost holds = { D.holds };

    fn new() -> Self {
        <D as sha2::Digest>::new()
    }

    fn update(&mut self, piece: &[u8]) {
        sha2::Digest::update(self, piece);
    }

    fn finish(self) -> Digest {
        self.finish_sha2()
    }
}

/// Computes SHA-224 (FIPS 180-4, 6.3).
pub type Sha224Hasher = CountingHasher<sha2::Sha224>;

impl Sha2Digest for sha2::Sha224 {
    ghost SHA2 = { algos.Sha224 };

    const SHA2: Algo = Algo::Sha224;

    fn finish_sha2(self) -> Digest {
        Digest::from_bytes(&sha2::Digest::finalize(self))
    }
}

/// Computes SHA-256 (FIPS 180-4, 6.2).
pub type Sha256Hasher = CountingHasher<sha2::Sha256>;

impl Sha2Digest for sha2::Sha256 {
    ghost SHA2 = { algos.Sha256 };

    const SHA2: Algo = Algo::Sha256;

    fn finish_sha2(self) -> Digest {
        Digest::from_bytes(&sha2::Digest::finalize(self))
    }
}

/// Computes SHA-384 (FIPS 180-4, 6.5).
pub type Sha384Hasher = CountingHasher<sha2::Sha384>;

impl Sha2Digest for sha2::Sha384 {
    ghost SHA2 = { algos.Sha384 };

    const SHA2: Algo = Algo::Sha384;

    fn finish_sha2(self) -> Digest {
        Digest::from_bytes(&sha2::Digest::finalize(self))
    }
}

/// Computes SHA-512 (FIPS 180-4, 6.4).
pub type Sha512Hasher = CountingHasher<sha2::Sha512>;

impl Sha2Digest for sha2::Sha512 {
    ghost SHA2 = { algos.Sha512 };

    const SHA2: Algo = Algo::Sha512;

    fn finish_sha2(self) -> Digest {
        Digest::from_bytes(&sha2::Digest::finalize(self))
    }
}
