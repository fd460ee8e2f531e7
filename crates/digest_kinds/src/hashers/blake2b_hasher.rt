//! BLAKE2b as a hasher.

ghost use Rattle.blake2b_core.specs.Blake2b.{HasTaken, digest_len, taken_count};
ghost use Rattle.digest_kinds.specs.Kind.{blake2b_kind};

use crate::digest::Digest;
use crate::hashers::hasher::Hasher;
use crate::kind::Kind;
use blake2b_core::Blake2b;

impl Hasher for Blake2b {
    ghost holds = { HasTaken };

    ghost kind_of = { λ h. blake2b_kind (digest_len h) };

    ghost taken_of = { taken_count };

    ghost counts = { λ h m held. held.so_far.taken };

    fn kind(&self) -> Kind {
        Kind::blake2b(self.len())
    }

    fn taken(&self) -> u64 {
        Blake2b::taken(self)
    }

    fn update(&mut self, piece: &[u8]) {
        Blake2b::update(self, piece);
    }

    fn finish(self) -> Digest {
        Digest::from_bytes(Blake2b::finish(self).as_slice())
    }
}
