//! The compression function F as RFC 7693 has it, one G after another: what the lanes are compared with.
use byteorder::{ByteOrder, LittleEndian};

// The order in which the rounds take the words of a block (RFC 7693, 2.7).
#[rattlefmt::skip]
const SIGMA: [[usize; 16]; 10] = [
    [0, 1, 2, 3, 4, 5, 6, 7, 8, 9, 10, 11, 12, 13, 14, 15],
    [14, 10, 4, 8, 9, 15, 13, 6, 1, 12, 0, 2, 11, 7, 5, 3],
    [11, 8, 12, 0, 5, 2, 15, 13, 10, 14, 3, 6, 7, 1, 9, 4],
    [7, 9, 3, 1, 13, 12, 11, 14, 2, 6, 5, 10, 4, 0, 15, 8],
    [9, 0, 5, 7, 2, 4, 10, 15, 14, 1, 11, 12, 6, 8, 3, 13],
    [2, 12, 6, 10, 0, 11, 8, 3, 4, 13, 7, 5, 15, 14, 1, 9],
    [12, 5, 1, 15, 14, 13, 4, 10, 0, 7, 6, 3, 9, 2, 8, 11],
    [13, 11, 7, 14, 12, 1, 3, 9, 5, 0, 15, 4, 8, 6, 2, 10],
    [6, 15, 14, 9, 11, 3, 0, 8, 12, 2, 13, 7, 1, 4, 10, 5],
    [10, 2, 8, 4, 7, 6, 1, 5, 15, 11, 9, 14, 3, 12, 13, 0],
];

// IV (RFC 7693, 2.6).
const IV: [u64; 8] = [
    0x6a09e667f3bcc908,
    0xbb67ae8584caa73b,
    0x3c6ef372fe94f82b,
    0xa54ff53a5f1d36f1,
    0x510e527fade682d1,
    0x9b05688c2b3e6c1f,
    0x1f83d9abfb41bd6b,
    0x5be0cd19137e2179,
];

// G (RFC 7693, 3.1): mixes the words `x` and `y` into these four.
fn mix([mut a, mut b, mut c, mut d]: [u64; 4], x: u64, y: u64) -> [u64; 4] {
    a = a.wrapping_add(b).wrapping_add(x);
    d = (d ^ a).rotate_right(32);
    c = c.wrapping_add(d);
    b = (b ^ c).rotate_right(24);
    a = a.wrapping_add(b).wrapping_add(y);
    d = (d ^ a).rotate_right(16);
    c = c.wrapping_add(d);
    b = (b ^ c).rotate_right(63);
    [a, b, c, d]
}

// The places that a round mixes: four columns, and then four diagonals (RFC 7693, 3.2).
const PLACES: [[usize; 4]; 8] = [
    [0, 4, 8, 12],
    [1, 5, 9, 13],
    [2, 6, 10, 14],
    [3, 7, 11, 15],
    [0, 5, 10, 15],
    [1, 6, 11, 12],
    [2, 7, 8, 13],
    [3, 4, 9, 14],
];

// One round, which takes the words of the block in this order.
fn round(m: &[u64; 16], v: &mut [u64; 16], order: &[usize; 16]) {
    for (places, words) in PLACES.iter().zip(order.chunks(2)) {
        if let [x, y] = words {
            mix_at(v, *places, m[*x % 16], m[*y % 16]);
        }
    }
}

// G at these places of `v`.
fn mix_at(v: &mut [u64; 16], [a, b, c, d]: [usize; 4], x: u64, y: u64) {
    let (a, b, c, d) = (a % 16, b % 16, c % 16, d % 16);
    let words = mix([v[a], v[b], v[c], v[d]], x, y);
    [v[a], v[b], v[c], v[d]] = words;
}

// The working vector before the first round.
fn start(h: &[u64; 8], t: u128, last: bool) -> [u64; 16] {
    let low = (t % (1 << 64)) as u64;
    let high = (t >> 64) as u64;
    let mut v = [0; 16];
    v[..8].copy_from_slice(h);
    v[8..].copy_from_slice(&IV);
    v[12] ^= low;
    v[13] ^= high;
    if last {
        v[14] = !v[14];
    }
    v
}

// F (RFC 7693, 3.2).
pub(crate) fn compress(h: &[u64; 8], block: &[u8; 128], t: u128, last: bool) -> [u64; 8] {
    let mut m = [0; 16];
    LittleEndian::read_u64_into(block, &mut m);
    let mut v = start(h, t, last);
    for order in SIGMA.iter().chain(&SIGMA[..2]) {
        round(&m, &mut v, order);
    }
    let mut after = *h;
    for i in 0..8 {
        after[i] ^= v[i] ^ v[i + 8];
    }
    after
}
