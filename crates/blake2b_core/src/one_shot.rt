//! The digest of a whole message (RFC 7693, 3.3).
ghost use Rattle.blake2b_core.specs.{Bytes.ByteString, Digest.IsDigestLen, Digest.count_before_last, Digest.blake2b};
ghost use Rattle.blake2b_core.specs.{Digest.hash_after, declared.one_shot.TheConstants.BLOCK};
ghost use Rattle.blake2b_core.specs.{private.OneShot.HasBlocksFrom};
ghost use Rattle.std.specs.Prelude.{◌≡◌, ◌↔◌, ℕ, ◌+◌, ◌-◌, ◌*◌, ◌^◌, ◌<◌, ◌≤◌, ◌++◌, length, replicate, IsSome, IfSome};
ghost use Rattle.std.specs.Simd.{first_chunks};

use crate::compression::{IV, advance, compress};
use crate::output::Output;

// The number of bytes in a block.
pub(crate) const BLOCK: usize = 128;

// The state before the first block of a message whose digest has `len` bytes.
#[tactic(auto, unfolding(crate::specs::Digest::hash_after))]
pub(crate) fn initial(len: usize) -> [u64; 8]
    requires { len ≤ 64 }
    ensures { (m : ByteString) → result ≡ hash_after len m 0 }
{
    let mut h = IV;
    h[0] ^= 0x0101_0000 ^ len as u64;
    h
}

// The whole blocks at the front of `bytes` that are followed by at least one byte, so that none is a message's last
// block.
#[tactic(auto, using(std::proofs::lemmas::Grind::common_steps, crate::proofs::BlockLemmas::first_chunks_take))]
pub(crate) fn followed_blocks(bytes: &[u8]) -> &[[u8; 128]]
    ensures value { result.now ≡ first_chunks BLOCK (count_before_last bytes.now) bytes.now }
    ensures count { length result.now ≡ count_before_last bytes.now }
{
    let followed = bytes.len().saturating_sub(1);
    bytes[..followed].as_chunks::<128>().0
}

// The state after the blocks `followed`, none of which is the last, from the state `h` after the `before` bytes that
// precede them.
pub(crate) fn state_after(mut h: [u64; 8], followed: &[[u8; 128]], before: u64) -> [u64; 8]
    requires { before + BLOCK * length followed.now < 2 ^ 64 }
    ensures { (n : ℕ) (m : ByteString) (k : ℕ) → BLOCK * k ≡ before → HasBlocksFrom m k followed.now
        → h ≡ hash_after n m k → result ≡ hash_after n m (k + length followed.now) }
{
    let mut taken = before;
    for block in followed {
        taken += 128;
        advance(&mut h, block, u128::from(taken), false);
    }
    h
}

// The bytes, padded with zeros to a whole block.
pub(crate) fn padded_block(bytes: &[u8]) -> [u8; 128]
    requires { length bytes.now ≤ BLOCK }
    ensures { result ≡ bytes.now ++ replicate (BLOCK - length bytes.now) 0 }
{
    let mut block = [0; 128];
    block[..bytes.len()].copy_from_slice(bytes);
    block
}

/// Computes the BLAKE2b digest of `len` bytes of a message, without a key (RFC 7693, 3.3). Returns `None` if and only
/// if `len` is 0 or over 64.
pub fn blake2b(len: usize, message: &[u8]) -> Option<Output>
    ensures some { IsSome result ↔ IsDigestLen len }
    ensures digest { IfSome result (λ d. d ≡ blake2b len message.now) }
{
    if len == 0 || len > 64 {
        return None;
    }
    let front = followed_blocks(message);
    let last = padded_block(&message[BLOCK * front.len()..]);
    let h = state_after(initial(len), front, 0);
    let h = compress(&h, &last, message.len() as u128, true);
    Some(Output::from_state(&h, len))
}
