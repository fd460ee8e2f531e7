//! Published digests, messages in pieces, and the compression function beside a plain one. The calls here have no
//! contracts, so that no proof computes a digest.
use crate::plain;
use blake2b_core::{Blake2b, Output, blake2b, compress};
use digest_kinds::Digest;
use std::process::Abort;

fn whole(rt: &impl Abort, len: usize, message: &[u8]) -> Output {
    blake2b(len, message).expect(rt, "a length")
}

// The example of RFC 7693 (appendix A), the digest of 32 bytes of nothing, and lengths that no digest has.
#[test]
fn lengths(rt: HostRuntime) {
    let abc = b"ba80a53f981c4d0d6a2797b69f12f6e94c212f14685ac4b74b12bb6fdbffa2d1\
        7d87c5392aab792dc252d5de4533cc9518d38aa8dbf1925ab92386edd4009923";
    let short = b"0e5751c026e543b2e8ab2eb06099daa1d1e5df47778f7787faab45cdf12fe3a8";
    for (len, message, digits) in [(64, b"abc".as_slice(), abc.as_slice()), (32, b"", short)] {
        let digest = Digest::from_hex(digits).expect(&rt, "digits");
        assert_eq!(rt; whole(&rt, len, message).as_slice(), digest.as_slice());
    }
    for len in [0, 65] {
        assert!(rt; Blake2b::new(len).is_none() && blake2b(len, b"").is_none());
    }
}

fn in_chunks(rt: &impl Abort, message: &[u8], size: usize) -> Output {
    let mut state = Blake2b::new(64).expect(rt, "a length");
    for piece in message.chunks(size.max(1)) {
        append(rt, &mut state, piece);
    }
    state.finish()
}

// The digest of a message in two pieces, with an empty piece before them and one after them.
fn in_two(rt: &impl Abort, message: &[u8], cut: usize) -> Output {
    let (first, second) = message.split_at(cut.min(message.len()));
    let mut state = Blake2b::new(64).expect(rt, "a length");
    append(rt, &mut state, b"");
    append(rt, &mut state, first);
    append(rt, &mut state, second);
    append(rt, &mut state, b"");
    state.finish()
}

fn append(rt: &impl Abort, state: &mut Blake2b, piece: &[u8]) {
    assert!(rt; state.try_update(piece).is_ok());
}

#[test]
fn pieces(rt: HostRuntime) {
    let mut message = [0; 400];
    for i in 0..400 {
        message[i] = (i % 251) as u8;
    }
    for len in [0, 1, 127, 128, 129, 256] {
        let message = &message[..len];
        let digest = whole(&rt, 64, message);
        for size in [1, 127, 128, 129] {
            let found = in_chunks(&rt, message, size);
            assert_eq!(rt; found.as_slice(), digest.as_slice(), "{len} by {size}");
        }
    }
    for len in 0..=400 {
        let message = &message[..len];
        let digest = whole(&rt, 64, message);
        for cut in 0..=len {
            let found = in_two(&rt, message, cut);
            assert_eq!(rt; found.as_slice(), digest.as_slice(), "{len} cut at {cut}");
        }
    }
}

// The word at `x`, which then advances along a sequence that visits every word.
fn next_word(x: &mut u64) -> u64 {
    let word = *x;
    *x = word
        .wrapping_mul(6_364_136_223_846_793_005)
        .wrapping_add(1_442_695_040_888_963_407);
    word
}

#[test]
fn lanes_and_plain_words(rt: HostRuntime) {
    for seed in 0..1000 {
        let mut x = seed;
        let mut h = [0; 8];
        for word in &mut h {
            *word = next_word(&mut x);
        }
        let mut block = [0; 128];
        for bytes in block.chunks_exact_mut(8) {
            bytes.copy_from_slice(&next_word(&mut x).to_le_bytes());
        }
        let low = next_word(&mut x);
        let high = next_word(&mut x);
        let t = (u128::from(high) << 64) | u128::from(low);
        for last in [false, true] {
            assert_eq!(rt;
                compress(&h, &block, t, last),
                plain::compress(&h, &block, t, last),
                "{seed}, {last}"
            );
        }
    }
}
