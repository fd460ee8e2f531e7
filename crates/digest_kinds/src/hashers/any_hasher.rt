//! A hasher for any kind.

ghost use Rattle.std.specs.Prelude.{◌≡◌, []};

use crate::algo::Algo;
use crate::digest::Digest;
use crate::hashers::counting_hasher::{
    Md5Hasher, Sha1Hasher, Sha224Hasher, Sha256Hasher, Sha384Hasher, Sha512Hasher,
};
use crate::hashers::hasher::Hasher;
use crate::kind::Kind;
use blake2b_core::Blake2b;

/// Computes the digest of one kind, which is chosen when it is made.
#[derive(Clone, Debug, Drop)]
pub enum AnyHasher {
    /// MD5.
    Md5(Md5Hasher),
    /// SHA-1.
    Sha1(Sha1Hasher),
    /// SHA-224.
    Sha224(Sha224Hasher),
    /// SHA-256.
    Sha256(Sha256Hasher),
    /// SHA-384.
    Sha384(Sha384Hasher),
    /// SHA-512.
    Sha512(Sha512Hasher),
    /// BLAKE2b, of 1 to 64 bytes.
    Blake2b(Blake2b),
}

// Evaluates the expression for the hasher in the value, whichever it is.
macro_rules! each {
    ($any:expr, $hasher:ident => $result:expr) => {
        match $any {
            AnyHasher::Md5($hasher) => $result,
            AnyHasher::Sha1($hasher) => $result,
            AnyHasher::Sha224($hasher) => $result,
            AnyHasher::Sha256($hasher) => $result,
            AnyHasher::Sha384($hasher) => $result,
            AnyHasher::Sha512($hasher) => $result,
            AnyHasher::Blake2b($hasher) => $result,
        }
    };
}

impl AnyHasher {
    /// Creates a hasher of the empty message for digests of this kind.
    pub fn new(kind: Kind) -> AnyHasher
        ensures holds { ⟦<AnyHasher as Hasher>⟧.holds result [] }
        ensures kind { ⟦<AnyHasher as Hasher>⟧.kind_of result ≡ kind }
        ensures taken { ⟦<AnyHasher as Hasher>⟧.taken_of result ≡ 0 }
    {
        let len = kind.len();
        match kind.algo() {
            Algo::Md5 => AnyHasher::Md5(Md5Hasher::new()),
            Algo::Sha1 => AnyHasher::Sha1(Sha1Hasher::new()),
            Algo::Sha224 => AnyHasher::Sha224(Sha224Hasher::new()),
            Algo::Sha256 => AnyHasher::Sha256(Sha256Hasher::new()),
            Algo::Sha384 => AnyHasher::Sha384(Sha384Hasher::new()),
            Algo::Sha512 => AnyHasher::Sha512(Sha512Hasher::new()),
            Algo::Blake2b => AnyHasher::Blake2b(Blake2b::new(len).unwrap()),
        }
    }
}

impl Hasher for AnyHasher {
    ghost use Rattle.digest_kinds.specs.hashers.AnyHasher.{hasher_in, taken-length};

    ghost holds = { λ h. (hasher_in h).holds };

    ghost kind_of = { λ h. (hasher_in h).kind };

    ghost taken_of = { λ h. (hasher_in h).taken };

    ghost counts = { taken-length };

    fn kind(&self) -> Kind {
        each!(self, hasher => Hasher::kind(hasher))
    }

    fn taken(&self) -> u64 {
        each!(self, hasher => Hasher::taken(hasher))
    }

    fn update(&mut self, piece: &[u8]) {
        each!(self, hasher => Hasher::update(hasher, piece))
    }

    fn finish(self) -> Digest {
        each!(self, hasher => Hasher::finish(hasher))
    }
}
