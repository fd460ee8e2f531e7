//! The bytes of a BLAKE2b digest.
ghost use Rattle.blake2b_core.specs.Digest.{IsDigestLen};
ghost use Rattle.byteorder.specs.Endian.{little_bytes};
ghost use Rattle.std.specs.Prelude.{◌≡◌, flat_map, length, take};

use byteorder::{ByteOrder, LittleEndian};
use std::marker::Model;

/// A digest of 1 to 64 bytes.
#[derive(Debug, Drop)]
pub struct Output {
    bytes: [u8; 64],
    len: usize,
}

impl Model for Output {
    ghost use Rattle.blake2b_core.specs.{Bytes.ByteString, Digest.IsDigestLen};
    ghost use Rattle.std.specs.Prelude.{take};

    ghost Value = { ByteString };

    ghost view = { λ o. take o.len o.bytes };

    ghost invariant = { λ o. IsDigestLen o.len };
}

impl Output {
    // The first `len` bytes of the words of `h`, each written low byte first.
    pub(crate) fn from_state(h: &[u64; 8], len: usize) -> Output
        requires { IsDigestLen len }
        ensures value { result ≡ take len (flat_map (little_bytes 8) h.now) }
        ensures len { length result ≡ len }
    {
        let mut bytes = [0; 64];
        LittleEndian::write_u64_into(h, &mut bytes);
        Output { bytes, len }
    }

    /// Returns the digest's bytes, 1 to 64 of them.
    pub fn as_slice(&self) -> &[u8]
        ensures value { result.now ≡ self.now }
        ensures size { IsDigestLen (length self.now) }
    {
        &self.bytes[..self.len]
    }
}
