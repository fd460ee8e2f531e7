//! The compression function F of RFC 7693, sections 3.1 and 3.2, with the constants of 2.6 and 2.7.
ghost use Rattle.blake2b_core.specs.Compression.{compress, round, work_vector};
ghost use Rattle.blake2b_core.specs.private.Columns.{block_words, next_state, schedule, words};
ghost use Rattle.std.specs.Prelude.{◌≡◌};

use crate::columns::{mixed_columns, mixed_diagonals};
use byteorder::{ByteOrder, LittleEndian};
use std::simd::{Simd, u64x4};

pub(crate) const IV: [u64; 8] = [
    0x6a09e667f3bcc908,
    0xbb67ae8584caa73b,
    0x3c6ef372fe94f82b,
    0xa54ff53a5f1d36f1,
    0x510e527fade682d1,
    0x9b05688c2b3e6c1f,
    0x1f83d9abfb41bd6b,
    0x5be0cd19137e2179,
];

// The words of the block in the order in which round `r` takes them: row r mod 10 of SIGMA. If `r` is a literal, the
// compiler picks the row.
#[inline(always)]
#[rattlefmt::skip]
fn schedule(m: Simd<u64, 16>, r: usize) -> Simd<u64, 16>
    ensures { result ≡ schedule m r }
{
    match r % 10 {
        0 => m.swizzle([0, 1, 2, 3, 4, 5, 6, 7, 8, 9, 10, 11, 12, 13, 14, 15]),
        1 => m.swizzle([14, 10, 4, 8, 9, 15, 13, 6, 1, 12, 0, 2, 11, 7, 5, 3]),
        2 => m.swizzle([11, 8, 12, 0, 5, 2, 15, 13, 10, 14, 3, 6, 7, 1, 9, 4]),
        3 => m.swizzle([7, 9, 3, 1, 13, 12, 11, 14, 2, 6, 5, 10, 4, 0, 15, 8]),
        4 => m.swizzle([9, 0, 5, 7, 2, 4, 10, 15, 14, 1, 11, 12, 6, 8, 3, 13]),
        5 => m.swizzle([2, 12, 6, 10, 0, 11, 8, 3, 4, 13, 7, 5, 15, 14, 1, 9]),
        6 => m.swizzle([12, 5, 1, 15, 14, 13, 4, 10, 0, 7, 6, 3, 9, 2, 8, 11]),
        7 => m.swizzle([13, 11, 7, 14, 12, 1, 3, 9, 5, 0, 15, 4, 8, 6, 2, 10]),
        8 => m.swizzle([6, 15, 14, 9, 11, 3, 0, 8, 12, 2, 13, 7, 1, 4, 10, 5]),
        _ => m.swizzle([10, 2, 8, 4, 7, 6, 1, 5, 15, 11, 9, 14, 3, 12, 13, 0]),
    }
}

// Round `r`: four columns, then four diagonals. Each takes two words, which are adjacent in its order.
#[inline(always)]
fn round(m: Simd<u64, 16>, v: [u64x4; 4], r: usize) -> [u64x4; 4]
    ensures { words result ≡ round m (words v) r }
{
    let m = schedule(m, r);
    let v = mixed_columns(v, m.swizzle([0, 2, 4, 6]), m.swizzle([1, 3, 5, 7]));
    mixed_diagonals(v, m.swizzle([8, 10, 12, 14]), m.swizzle([9, 11, 13, 15]))
}

// The working vector before the first round.
#[inline(always)]
#[tactic(auto, using(crate::proofs::CompressionLemmas::start_is))]
fn work_vector(h: &[u64; 8], t: u128, last: bool) -> [u64x4; 4]
    ensures { words result ≡ work_vector h.now t last }
{
    let low = (t % (1 << 64)) as u64;
    let high = (t >> 64) as u64;
    let flag = if last { !IV[6] } else { IV[6] };
    [
        u64x4::from_array([h[0], h[1], h[2], h[3]]),
        u64x4::from_array([h[4], h[5], h[6], h[7]]),
        u64x4::from_array([IV[0], IV[1], IV[2], IV[3]]),
        u64x4::from_array([IV[4] ^ low, IV[5] ^ high, flag, IV[7]]),
    ]
}

// The sixteen words of a block, little-endian.
#[inline(always)]
#[tactic(auto, using(crate::proofs::CompressionLemmas::block_words_is))]
fn block_words(block: &[u8; 128]) -> [u64; 16]
    ensures { result ≡ block_words block.now }
{
    let mut m = [0; 16];
    LittleEndian::read_u64_into(block, &mut m);
    m
}

// The state after the last round: the old one and both halves of the working vector.
#[inline(always)]
fn feed_forward(h: &mut [u64; 8], v: [u64x4; 4])
    ensures { h.new ≡ next_state h.old (words v) }
{
    let [a, b, c, d] = v;
    let low = u64x4::from_array([h[0], h[1], h[2], h[3]]) ^ a ^ c;
    let high = u64x4::from_array([h[4], h[5], h[6], h[7]]) ^ b ^ d;
    let [h0, h1, h2, h3] = low.to_array();
    let [h4, h5, h6, h7] = high.to_array();
    *h = [h0, h1, h2, h3, h4, h5, h6, h7];
}

// The compression function F, which replaces the old state by the new one.
pub(crate) fn advance(h: &mut [u64; 8], block: &[u8; 128], t: u128, last: bool)
    ensures { h.new ≡ compress h.old block.now t last }
{
    let m = Simd::<u64, 16>::from_array(block_words(block));
    let v = work_vector(h, t, last);
    // The rounds are written out, so that the compiler picks each row of SIGMA.
    let v = round(m, v, 0);
    let v = round(m, v, 1);
    let v = round(m, v, 2);
    let v = round(m, v, 3);
    let v = round(m, v, 4);
    let v = round(m, v, 5);
    let v = round(m, v, 6);
    let v = round(m, v, 7);
    let v = round(m, v, 8);
    let v = round(m, v, 9);
    let v = round(m, v, 10);
    let v = round(m, v, 11);
    feed_forward(h, v);
}

/// Computes the compression function F (RFC 7693, 3.2): the state after `block`, from the state `h` before it. `t` is
/// the number of message bytes up to the end of this block, and `last` says whether it is the last.
pub fn compress(h: &[u64; 8], block: &[u8; 128], t: u128, last: bool) -> [u64; 8]
    ensures state { result ≡ compress h.now block.now t last }
{
    let mut next = *h;
    advance(&mut next, block, t, last);
    next
}
