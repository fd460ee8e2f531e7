//! The digest of a message that comes in pieces.
ghost use Rattle.blake2b_core.specs.Digest.{IsDigestLen};
ghost use Rattle.blake2b_core.specs.declared.{incremental.TheConstants.LIMIT, one_shot.TheConstants.BLOCK};
ghost use Rattle.std.specs.Prelude.{◌≡◌, ◌↔◌, ◌+◌, ◌-◌, ◌<◌, ◌≤◌, [], ◌++◌, length, take, IsSome, IfSome, IsOk, OnOk};
ghost use Rattle.std.specs.Prelude.{OnErr};

use crate::compression::compress;
use crate::one_shot::{BLOCK, followed_blocks, initial, padded_block, state_after};
use crate::output::Output;
use std::alloc::AllocError;
use thiserror::Error;

/// The bound on messages that come in pieces: they have fewer bytes than this. FIPS 180-4 defines SHA-1, SHA-224 and
/// SHA-256 for messages of fewer than 2^64 bits, which is 2^61 bytes. BLAKE2b would allow more, but has the same bound
/// here.
pub const LIMIT: u64 = 1 << 61;

/// The message would have [`LIMIT`] bytes or more.
#[derive(Clone, Copy, Debug, PartialEq, Eq, Error)]
#[error("a message has fewer than 2^61 bytes")]
pub struct MessageTooLong;

impl MessageTooLong {
    /// Fails if and only if a message of `taken` bytes and then the piece would have [`LIMIT`] bytes or more.
    pub fn check(taken: u64, piece: &[u8]) -> Result<(), MessageTooLong>
        ensures fits { IsOk result ↔ (taken + length piece.now < LIMIT) }
    {
        if piece.len() as u64 >= LIMIT.saturating_sub(taken) {
            return Err(MessageTooLong);
        }
        Ok(())
    }
}

/// Computes a BLAKE2b digest of a message that comes in pieces. At most one block of the message is buffered.
#[derive(Debug, Drop)]
pub struct Blake2b {
    // The state after the blocks before the buffered one.
    h: [u64; 8],
    // A full block stays buffered until a byte follows it, since the message's last block is compressed with a flag.
    buffer: [u8; 128],
    buffer_len: usize,
    taken: u64,
    len: usize,
    ghost within: { buffer_len ≤ BLOCK },
    ghost is_digest_len: { IsDigestLen len },
}

impl Blake2b {
    ghost use Rattle.blake2b_core.specs.Blake2b.{HasTaken, HoldsSoFar, digest_len, taken_count};
    ghost use Rattle.blake2b_core.specs.{Bytes.ByteString, Digest.blake2b};

    /// Creates the state of the empty message, for a digest of `len` bytes. Returns `None` if and only if `len` is 0 or
    /// over 64.
    pub fn new(len: usize) -> Option<Blake2b>
        ensures some { IsSome result ↔ IsDigestLen len }
        ensures holds { IfSome result (λ s. HasTaken s []) }
        ensures len { IfSome result (λ s. digest_len s ≡ len) }
    {
        if len == 0 || len > 64 {
            return None;
        }
        Some(Blake2b {
            h: initial(len),
            buffer: [0; 128],
            buffer_len: 0,
            taken: 0,
            len,
        })
    }

    /// Returns the digest's length in bytes, 1 to 64.
    pub fn len(&self) -> usize
        ensures len { result ≡ digest_len self.now }
    {
        self.len
    }

    /// Returns the length of the message so far, in bytes.
    pub fn taken(&self) -> u64
        ensures taken { result ≡ taken_count self.now }
    {
        self.taken
    }

    // Adds bytes to those that are buffered.
    fn buffer_bytes(&mut self, bytes: &[u8])
        requires room { self.old.buffer_len + length bytes.now ≤ BLOCK }
        requires fits { self.old.taken + length bytes.now < LIMIT }

        // If the state had taken a message, it has now taken the bytes, too.
        ensures holds { (m : ByteString) → HoldsSoFar self.old m
            → HoldsSoFar self.new (m ++ bytes.now) }

        // What it counts, and what stays.
        ensures size { length self.new.buffer ≡ BLOCK }
        ensures buffer_len { self.new.buffer_len ≡ self.old.buffer_len + length bytes.now }
        ensures taken { self.new.taken ≡ self.old.taken + length bytes.now }
        ensures len { self.new.len ≡ self.old.len }
    {
        let buffer = &mut self.buffer[..];
        buffer[self.buffer_len..self.buffer_len + bytes.len()].copy_from_slice(bytes);
        self.buffer_len += bytes.len();
        self.taken += bytes.len() as u64;
    }

    // If some bytes are buffered and the piece has more than fits in the buffer: fills the buffer and compresses it.
    // Returns how many bytes it took.
    fn fill(&mut self, piece: &[u8]) -> usize
        requires { self.old.taken + length piece.now < LIMIT }

        // If the state had taken a message, it has now taken this part of the piece, too.
        ensures holds { (m : ByteString) → HoldsSoFar self.old m
            → HoldsSoFar self.new (m ++ take result piece.now) }

        // Something of a piece is left, and an empty piece changes nothing.
        ensures below { 0 < length piece.now → result < length piece.now }
        ensures empty_piece { length piece.now ≡ 0 → result ≡ 0 }
        ensures empty_stays { length piece.now ≡ 0
            → self.new.buffer_len ≡ self.old.buffer_len }

        // Nothing is buffered if the rest doesn't fit in the buffer.
        ensures room { BLOCK < self.new.buffer_len + (length piece.now - result)
            → self.new.buffer_len ≡ 0 }

        // What it counts, and what stays.
        ensures taken { self.new.taken ≡ self.old.taken + result }
        ensures len { self.new.len ≡ self.old.len }
    {
        let room = BLOCK - self.buffer_len;
        if self.buffer_len == 0 || piece.len() <= room {
            return 0;
        }
        self.buffer_bytes(&piece[..room]);
        self.h = compress(&self.h, &self.buffer, u128::from(self.taken), false);
        self.buffer_len = 0;
        room
    }

    // If nothing is buffered: compresses the whole blocks at the front of the piece, but the last block only if a byte
    // follows it. Returns how many bytes it took.
    fn absorb(&mut self, piece: &[u8]) -> usize
        requires fits { self.old.taken + length piece.now < LIMIT }
        requires room { BLOCK < self.old.buffer_len + length piece.now → self.old.buffer_len ≡ 0 }

        // If the state had taken a message, it has now taken this part of the piece, too.
        ensures holds { (m : ByteString) → HoldsSoFar self.old m
            → HoldsSoFar self.new (m ++ take result piece.now) }

        // Something of a piece is left, and the rest fits in the buffer.
        ensures below { 0 < length piece.now → result < length piece.now }
        ensures empty_piece { length piece.now ≡ 0 → result ≡ 0 }
        ensures room { self.new.buffer_len + (length piece.now - result) ≤ BLOCK }

        // What it counts, and what stays.
        ensures buffer_len { self.new.buffer_len ≡ self.old.buffer_len }
        ensures taken { self.new.taken ≡ self.old.taken + result }
        ensures len { self.new.len ≡ self.old.len }
    {
        if self.buffer_len > 0 {
            return 0;
        }
        let blocks = followed_blocks(piece);
        self.h = state_after(self.h, blocks, self.taken);
        self.taken += (BLOCK * blocks.len()) as u64;
        BLOCK * blocks.len()
    }

    /// Appends a piece to the message, which must stay below `LIMIT` bytes.
    pub fn update(&mut self, piece: &[u8])
        requires { taken_count self.old + length piece.now < LIMIT }
        // If the state may have taken a message, it may then have taken that message and the piece.
        ensures holds { (m : ByteString) → HasTaken self.old m
            → HasTaken self.new (m ++ piece.now) }
        ensures taken { taken_count self.new ≡ taken_count self.old + length piece.now }
        ensures len { digest_len self.new ≡ digest_len self.old }
    {
        let filled = self.fill(piece);
        let rest = &piece[filled..];
        let absorbed = self.absorb(rest);
        self.buffer_bytes(&rest[absorbed..]);
    }

    /// Appends a piece to the message. Returns `MessageTooLong` if and only if the message would have `LIMIT` bytes or
    /// more. It is then unchanged.
    pub fn try_update(&mut self, piece: &[u8]) -> Result<(), MessageTooLong>
        ensures fits { IsOk result ↔ (taken_count self.old + length piece.now < LIMIT) }

        // What it has taken then, and what stays.
        ensures holds { OnOk result ((m : ByteString) → HasTaken self.old m
            → HasTaken self.new (m ++ piece.now)) }
        ensures taken { OnOk result (taken_count self.new
            ≡ taken_count self.old + length piece.now) }
        ensures len { digest_len self.new ≡ digest_len self.old }
        ensures err { OnErr result (self.new ≡ self.old) }
    {
        MessageTooLong::check(self.taken, piece)?;
        self.update(piece);
        Ok(())
    }

    /// Returns the digest of the message (RFC 7693, 3.3).
    pub fn finish(self) -> Output
        ensures digest { (m : ByteString) → HasTaken self m → result ≡ blake2b (digest_len self) m }
        ensures len { length result ≡ digest_len self }
    {
        let last = padded_block(&self.buffer[..self.buffer_len]);
        let h = compress(&self.h, &last, u128::from(self.taken), true);
        Output::from_state(&h, self.len)
    }
}

impl Clone for Blake2b {
    ghost use Rattle.std.specs.Prelude.{⊤};

    ghost is_clone = { λ state copy. copy ≡ state };

    ghost is_infallible = { λ _. ⊤ };

    fn clone(&self) -> Result<Blake2b, AllocError> {
        Ok(Blake2b {
            h: self.h,
            buffer: self.buffer,
            buffer_len: self.buffer_len,
            taken: self.taken,
            len: self.len,
        })
    }
}
