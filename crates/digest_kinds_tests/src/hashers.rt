//! Published digests, by each hasher: of `abc`, and of nothing by BLAKE2b of 32 bytes. The tests of the program have
//! the others.
use blake2b_core::Blake2b;
use digest_kinds::{
    AnyHasher, Digest, Hasher, Md5Hasher, Sha1Hasher, Sha224Hasher, Sha256Hasher, Sha384Hasher,
    Sha512Hasher,
};
use std::process::Abort;
use std::test::Fail;

// A new hasher with this tag returns this digest of the message, and has taken the message. It has no contract, so that
// no proof computes a digest.
fn check(rt: &impl Abort, mut hasher: impl Hasher, tag: &str, message: &[u8], digits: &[u8]) {
    assert!(rt; hasher.try_update(message).is_ok());
    assert_eq!(rt; hasher.taken(), message.len() as u64, "{tag}");
    assert_eq!(rt; hasher.kind().tag(), tag);
    assert!(rt; Some(hasher.finish()) == Digest::from_hex(digits), "{tag}");
}

#[test]
fn published(rt: HostRuntime) -> Result<(), Fail> {
    let md5 = b"900150983cd24fb0d6963f7d28e17f72";
    check(&rt, Md5Hasher::new(), "MD5", b"abc", md5);
    let sha1 = b"a9993e364706816aba3e25717850c26c9cd0d89d";
    check(&rt, Sha1Hasher::new(), "SHA1", b"abc", sha1);
    let sha224 = b"23097d223405d8228642a477bda255b32aadbce4bda0b3f7e36c9da7";
    check(&rt, Sha224Hasher::new(), "SHA224", b"abc", sha224);
    let sha256 = b"ba7816bf8f01cfea414140de5dae2223b00361a396177a9cb410ff61f20015ad";
    check(&rt, Sha256Hasher::new(), "SHA256", b"abc", sha256);
    let sha384 = b"cb00753f45a35e8bb5a03d699ac65007272c32ab0eded163\
        1a8b605a43ff5bed8086072ba1e7cc2358baeca134c825a7";
    check(&rt, Sha384Hasher::new(), "SHA384", b"abc", sha384);
    let sha512 = b"ddaf35a193617abacc417349ae20413112e6fa4e89a97ea20a9eeee64b55d39a\
        2192992a274fc1a836ba3c23a3feebbd454d4423643ce80e2a9ac94fa54ca49f";
    check(&rt, Sha512Hasher::new(), "SHA512", b"abc", sha512);
    let blake2b = b"0e5751c026e543b2e8ab2eb06099daa1d1e5df47778f7787faab45cdf12fe3a8";
    check(
        &rt,
        Blake2b::new(32).ok_or("a length")?,
        "BLAKE2b",
        b"",
        blake2b,
    );
    check(
        &rt,
        AnyHasher::new("BLAKE2b-256".parse()?),
        "BLAKE2b",
        b"",
        blake2b,
    );
    Ok(())
}
