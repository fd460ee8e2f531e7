//! Digests and their digits, tags that begin bytes, the lengths of BLAKE2b digests, and the texts of kinds. The calls
//! here have no contracts, so that no proof computes their results.
use digest_kinds::{Algo, Digest, Kind, LengthFault, NotDigits, UnknownKind, UnknownTag};
use std::alloc::Global;
use std::convert::AsSlice;
use std::hash::{DefaultHasher, Hash, Hasher as StdHasher};
use std::process::Abort;
use std::test::Fail;

fn len_of_bits(bits: u64) -> Result<usize, LengthFault> {
    Ok(Kind::blake2b_bits(bits)?.len())
}

fn bits_of_bytes(bytes: usize) -> Option<u64> {
    Some(Kind::blake2b_bytes(bytes)?.bits())
}

fn of_prefix(bytes: &[u8]) -> Option<Algo> {
    Algo::of_tag_prefix(bytes)
}

#[test]
fn kinds(rt: HostRuntime) {
    for (bits, want) in [
        (0, Ok(64)),
        (8, Ok(1)),
        (256, Ok(32)),
        (512, Ok(64)),
        (513, Err(LengthFault::TooLong)),
        (520, Err(LengthFault::TooLong)),
        (12, Err(LengthFault::NotBytes)),
        (511, Err(LengthFault::NotBytes)),
    ] {
        assert_eq!(rt; len_of_bits(bits), want, "{bits} bits");
    }
    for (bytes, want) in [(20, Some(160)), (0, None), (65, None)] {
        assert_eq!(rt; bits_of_bytes(bytes), want);
    }
    for (bytes, want) in [
        (b"SHA1 (a)".as_slice(), Some(Algo::Sha1)),
        (b"SHA2", None),
        (b"", None),
    ] {
        assert_eq!(rt; of_prefix(bytes), want);
    }
}

fn kind_of(text: &str) -> Result<Kind, UnknownKind> {
    text.parse()
}

fn algo_of(text: &str) -> Result<Algo, UnknownTag> {
    text.parse()
}

// Whether `Display` writes the kind as this text, and its algorithm as the kind's tag.
fn is_written(alloc: Global, kind: Kind, text: &str) -> Result<bool, Fail> {
    let (kind_text, tag) = (
        format!(in alloc; "{kind}")?,
        format!(in alloc; "{}", kind.algo())?,
    );
    Ok(kind_text.as_str() == text && tag.as_str() == kind.tag())
}

#[test]
fn texts(rt: HostRuntime) -> Result<(), Fail> {
    for (text, algo, len) in [
        ("SHA256", Algo::Sha256, 32),
        ("BLAKE2b", Algo::Blake2b, 64),
        ("BLAKE2b-256", Algo::Blake2b, 32),
        ("BLAKE2b-8", Algo::Blake2b, 1),
    ] {
        let kind = kind_of(text)?;
        assert_eq!(rt; (kind.algo(), kind.len()), (algo, len), "{text}");
        assert!(rt; is_written(rt.alloc(), kind, text)?, "{text}");
    }
    for text in [
        "",
        "sha256",
        "SHA256 ",
        "SHA256-256",
        "BLAKE2b-08",
        "BLAKE2b-12",
        "BLAKE2b-520",
    ] {
        assert_eq!(rt; kind_of(text), Err(UnknownKind), "{text}");
    }
    assert_eq!(rt; algo_of("SHA1"), Ok(Algo::Sha1));
    assert_eq!(rt; algo_of("sha1"), Err(UnknownTag));
    Ok(())
}

fn of_hex(digits: &[u8]) -> Option<Digest> {
    Digest::from_hex(digits)
}

// The bytes that a digest lends by the trait, and its hash.
fn bytes_of(digest: &impl AsSlice<u8>) -> &[u8] {
    digest.as_slice()
}

fn hash_of(digest: &Digest) -> u64 {
    let mut hasher = DefaultHasher::new();
    digest.hash(&mut hasher);
    hasher.finish()
}

// Two digests are the same by each comparison.
fn assert_same(rt: &impl Abort, one: &Digest, other: &Digest) {
    assert!(rt; one.same(other) && one == other);
    assert_eq!(rt; hash_of(one), hash_of(other));
}

// This one comes first in the order of digests.
fn assert_before(rt: &impl Abort, one: &Digest, other: &Digest) {
    assert!(rt; one < other && !one.same(other));
}

#[test]
fn digests(rt: HostRuntime) -> Result<(), Fail> {
    for text in [b"".as_slice(), b"0", b"0g", b"0aF", &[b'0'; 130]] {
        assert!(rt; of_hex(text).is_none());
    }
    assert!(rt; of_hex(&[b'0'; 128]).is_some());
    let digest = of_hex(b"0aFf").ok_or("no digest")?;
    assert_eq!(rt; digest.as_slice(), [10, 255].as_slice());
    assert_eq!(rt; bytes_of(&digest), [10, 255].as_slice());
    assert_eq!(rt; format!(in rt.alloc(); "{digest:>6}")?.as_str(), "  0aff");
    assert_same(&rt, &digest, &"0AFF".parse()?);
    assert_same(&rt, &digest, &digest.clone()?);
    assert_eq!(rt; "0g".parse::<Digest>(), Err(NotDigits));
    for text in [b"0b".as_slice(), b"0aff00", b"ff00"] {
        assert_before(&rt, &digest, &of_hex(text).ok_or("no digest")?);
    }
    Ok(())
}
