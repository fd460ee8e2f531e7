//! Digest algorithms, their digests, and hashers that compute them.
//!
//! A [`Kind`] is an algorithm with its digest's length. A [`Hasher`] takes a message piece by piece and returns its
//! [`Digest`]. For BLAKE2b, without a key, the digest is defined in `blake2b_core`, after RFC 7693. For MD5 (RFC 1321),
//! SHA-1 and SHA-2 (FIPS 180-4) the definition is the kit's, and published vectors test that it is the standard's.
//!
//! Everything that the other crates say about algorithms and digests belongs here, and nothing about lines, files or
//! tools. The crate takes no memory.
//!
//! ```rust
//! let kind: Kind = "BLAKE2b-256".parse()?;
//! let mut hasher = AnyHasher::new(kind);
//! hasher.update(b"abc");
//! let text = format!(in rt.alloc(); "{kind} {}", hasher.finish())?;
//! ```
#![tactic(auto)]

mod algo;
mod digest;
mod hashers;
mod kind;
mod kind_text;
pub mod laws;

pub use algo::{Algo, Algos, UnknownTag};
pub use digest::{Digest, NotDigits};
pub use hashers::any_hasher::AnyHasher;
pub use hashers::counting_hasher::{
    Md5Hasher, Sha1Hasher, Sha224Hasher, Sha256Hasher, Sha384Hasher, Sha512Hasher,
};
pub use hashers::hasher::{Hasher, LIMIT, MessageTooLong};
pub use kind::{Kind, LengthFault};
pub use kind_text::{KindPrefix, LONGEST_KIND_TEXT, UnknownKind};
