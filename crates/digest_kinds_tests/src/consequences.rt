//! What the contracts of hashers, of kinds and of algorithms give a caller.
ghost use Rattle.blake2b_core.specs.Blake2b.{HasTaken, digest_len, taken_count};
ghost use Rattle.blake2b_core.specs.Digest.{IsDigestLen, blake2b};
ghost use Rattle.digest_kinds.specs.{Bytes.ByteString, Bytes.LIMIT, Kind.message_digest};
ghost use Rattle.std.specs.Prelude.{◌≡◌, ◌↔◌, ◌+◌, ◌<◌, ◌++◌, if◌then◌else◌, length, take, slice_get, nat_lt, Some, Ok};
ghost use Rattle.std.specs.Prelude.{IsSome, IfSome};

use blake2b_core::{Blake2b, Output};
use digest_kinds::{Algo, Digest, Hasher, Kind, UnknownTag};

/// Takes a piece, unless the message would be too long with it. Returns the digest, its kind, and the length of its
/// message.
pub fn digest_with<H: Hasher>(mut hasher: H, piece: &[u8]) -> (Digest, Kind, u64)
    ensures digest { (m : ByteString) → H.holds hasher m →
        result.0 ≡ message_digest result.1 (take result.2 (m ++ piece.now)) }
    ensures kind { result.1 ≡ H.kind_of hasher }
    ensures taken { let all = H.taken_of hasher + length piece.now in
        result.2 ≡ (if nat_lt all LIMIT then all else H.taken_of hasher) }
{
    let _ = hasher.try_update(piece);
    let (kind, taken) = (hasher.kind(), hasher.taken());
    (hasher.finish(), kind, taken)
}

/// The same for BLAKE2b alone.
pub fn blake2b_with(mut state: Blake2b, piece: &[u8]) -> (Output, u64)
    ensures digest { (m : ByteString) → HasTaken state m →
        result.0 ≡ blake2b (digest_len state) (take result.1 (m ++ piece.now)) }
    ensures taken { let all = taken_count state + length piece.now in
        result.1 ≡ (if nat_lt all LIMIT then all else taken_count state) }
{
    let _ = state.try_update(piece);
    let taken = state.taken();
    (state.finish(), taken)
}

/// Returns the BLAKE2b digest of `len` bytes of a message, or `None` if and only if there is none of that length.
pub fn blake2b_digest(len: usize, message: &[u8]) -> Option<Digest>
    requires { length message.now < LIMIT }
    ensures some { IsSome result ↔ IsDigestLen len }
    ensures value { IfSome result (λ d. d ≡ blake2b len message.now) }
{
    Some(Kind::blake2b_bytes(len)?.digest(message))
}

/// Returns a row of a table of digests, which begins with this one, and the digest's first byte.
pub fn row_of(digest: &Output) -> ([u8; 64], u8)
    ensures row { take (length digest.now) result.0 ≡ digest.now }
    ensures first { slice_get digest.now 0 ≡ Some result.1 }
{
    let bytes = digest.as_slice();
    let mut row = [0; 64];
    row[..bytes.len()].copy_from_slice(bytes);
    (row, bytes[0])
}

/// Returns the first byte of a digest.
pub fn first_byte(digest: &Digest) -> u8
    ensures { slice_get digest.now 0 ≡ Some result }
{
    digest.as_slice()[0]
}

/// Returns the algorithm from its tag.
pub fn of_its_tag(algo: Algo) -> Result<Algo, UnknownTag>
    ensures { result ≡ Ok algo }
{
    algo.tag().parse()
}
