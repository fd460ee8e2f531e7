//! Digests: of whole messages, of messages in pieces, and their digits.
ghost use Rattle.blake2b_core.specs.{Compression.compress};
ghost use Rattle.blake2b_core.specs.Digest.{blake2b};
ghost use Rattle.byteorder.specs.Endian.{big_bytes};
ghost use Rattle.digest_kinds.specs.{Algo.tag_of, Bytes.ByteString, Bytes.LIMIT, Kind.message_digest};
ghost use Rattle.digest_kinds.specs.{declared.algo.Algo.Algo};
ghost use Rattle.hex.specs.Hex.{decode_of, encode_lower, is_hex_digit};
ghost use Rattle.std.specs.{List.AllPass, Prelude.◌≡◌, Prelude.◌↔◌, Prelude.◌≤◌, Prelude.◌<◌, Prelude.◌+◌};
ghost use Rattle.std.specs.Prelude.{◌*◌, ◌%◌, ◌++◌, [], IsSome, IfSome, Ok, length, drop, flat_map, codes};

use blake2b_core::laws::vectors;
use blake2b_core::{Blake2b, Output};
use digest_kinds::laws::tags_apart;
use digest_kinds::{AnyHasher, Digest, Hasher, Kind};

/// `compress` is the compression function F of RFC 7693.
pub fn compression(h: &[u64; 8], block: &[u8; 128], t: u128, last: bool) -> [u64; 8]
    ensures { result ≡ compress h.now block.now t last }
{
    blake2b_core::compress(h, block, t, last)
}

/// `blake2b` returns the BLAKE2b digest of this length, or `None` if and only if the length isn't 1 to 64.
pub fn blake2b_in_one_call(len: usize, message: &[u8]) -> Option<Output>
    ensures some { IsSome result ↔ ((1 ≤ len) × (len ≤ 64)) }
    ensures digest { IfSome result (λ d. d ≡ blake2b len message.now) }
{
    blake2b_core::blake2b(len, message)
}

/// A message of fewer than 2^61 bytes that comes in any pieces, empty ones too, has the digest of the whole.
pub fn blake2b_in_pieces(len: usize, pieces: &[&[u8]]) -> Option<Output>
    requires { length (flat_map (λ piece. piece.now) pieces.now) < LIMIT }
    ensures some { IsSome result ↔ ((1 ≤ len) × (len ≤ 64)) }
    ensures digest { IfSome result (λ d. d ≡ blake2b len (flat_map (λ piece. piece.now) pieces.now)) }
{
    let mut state = Blake2b::new(len)?;
    for piece in pieces {
        state.update(piece);
    }
    Some(state.finish())
}

/// A new hasher is of the kind that was chosen, and has taken the empty message.
pub fn hasher_begins(kind: Kind) -> AnyHasher
    ensures holds { ⟦<AnyHasher as Hasher>⟧.holds result [] }
    ensures kind { ⟦<AnyHasher as Hasher>⟧.kind_of result ≡ kind }
{
    AnyHasher::new(kind)
}

/// Each hasher that has taken a message has taken, after `update`, that message followed by the piece. Its kind stays.
pub fn piece_follows<H: Hasher>(hasher: &mut H, piece: &[u8])
    requires { H.taken_of hasher.old + length piece.now < LIMIT }
    ensures kind { H.kind_of hasher.new ≡ H.kind_of hasher.old }
    ensures holds { (m : ByteString) → H.holds hasher.old m → H.holds hasher.new (m ++ piece.now) }
{
    hasher.update(piece);
}

/// Each hasher returns, by `finish`, the digest of its kind of the message that it has taken.
pub fn digest_of_taken<H: Hasher>(hasher: H) -> Digest
    ensures { (m : ByteString) → H.holds hasher m → result ≡ message_digest (H.kind_of hasher) m }
{
    hasher.finish()
}

/// `hex_into` writes the digits in lower case, leaves the rest of the buffer, and returns their number.
pub fn digits_written(digest: &Digest, out: &mut [u8; 128]) -> usize
    ensures number { result ≡ 2 * length digest.now }
    ensures digits { out.new ≡ encode_lower digest.now ++ drop (2 * length digest.now) out.old }
{
    digest.hex_into(out)
}

/// `from_hex` returns the digest that the digits spell, or `None` if and only if the text isn't an even number of
/// hexadecimal digits, from 2 to 128.
pub fn digits_read(text: &[u8]) -> Option<Digest>
    ensures value { IfSome result (λ digest. decode_of text.now ≡ Ok digest) }
    ensures found { IsSome result ↔ ((2 ≤ length text.now) × (length text.now ≤ 128)
        × (length text.now % 2 ≡ 0) × AllPass is_hex_digit text.now) }
{
    Digest::from_hex(text)
}

/// No algorithm's tag is a prefix of another's.
pub fn tags_differ()
    ensures { (a b : Algo) (rest : ByteString) → tag_of b ≡ tag_of a ++ rest → a ≡ b }
{
    tags_apart();
}

/// The definition of BLAKE2b yields the digest of `abc` in RFC 7693, and those of the empty message, of 64 and of 32
/// bytes, that other programs compute.
pub fn known_digests()
    ensures abc { blake2b 64 (codes "abc")
        ≡ big_bytes 32 0xba80a53f981c4d0d6a2797b69f12f6e94c212f14685ac4b74b12bb6fdbffa2d1
        ++ big_bytes 32 0x7d87c5392aab792dc252d5de4533cc9518d38aa8dbf1925ab92386edd4009923 }
    ensures empty { blake2b 64 []
        ≡ big_bytes 32 0x786a02f742015903c6c6fd852552d272912f4740e15847618a86e217f71f5419
        ++ big_bytes 32 0xd25e1031afee585313896444934eb04b903a685b1448b755d56f701afe9be2ce }
    ensures short { blake2b 32 []
        ≡ big_bytes 32 0x0e5751c026e543b2e8ab2eb06099daa1d1e5df47778f7787faab45cdf12fe3a8 }
{
    vectors();
}
