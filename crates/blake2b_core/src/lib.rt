//! BLAKE2b without a key (RFC 7693): the compression function, the digest of a whole message, and the digest of a
//! message in pieces.
//!
//! Only what RFC 7693 defines belongs here. The crate takes no memory.
//!
//! ```rust
//! let mut hasher = Blake2b::new(64).ok_or("no such length")?;
//! hasher.update(b"a");
//! hasher.update(b"bc");
//! let whole = blake2b(64, b"abc").ok_or("no such length")?;
//! assert_eq!(rt; hasher.finish().as_slice(), whole.as_slice());
//! ```
#![tactic(auto)]

mod columns;
mod compression;
mod incremental;
pub mod laws;
mod one_shot;
mod output;

pub use compression::compress;
pub use incremental::{Blake2b, LIMIT, MessageTooLong};
pub use one_shot::blake2b;
pub use output::Output;
