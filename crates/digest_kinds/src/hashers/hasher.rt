//! The trait of a hasher.

ghost use Rattle.digest_kinds.specs.{Bytes.ByteString, Bytes.LIMIT, Kind.KindValue, Kind.message_digest};
ghost use Rattle.std.specs.Prelude.{◌≡◌, ◌↔◌, ℕ, ◌+◌, ◌<◌, ◌++◌, length, IsOk, OnOk, OnErr};

use crate::digest::Digest;
use crate::kind::Kind;
pub use blake2b_core::{LIMIT, MessageTooLong};

/// Takes a message piece by piece, and returns its digest.
pub trait Hasher {
    // The hasher may have taken this message. A hasher need not store it, so this is a relation.
    ghost holds: { Self → ByteString → Type 0 };

    // The kind of its digest.
    ghost kind_of: { Self → KindValue };

    // How many bytes it has taken.
    ghost taken_of: { Self → ℕ };

    /// Returns the kind of the digest that `finish` returns.
    fn kind(&self) -> Kind
        ensures kind { result ≡ kind_of self.now };

    /// Returns the number of bytes taken so far.
    fn taken(&self) -> u64
        ensures taken { result ≡ taken_of self.now };

    /// Takes the message's next piece. The whole message must stay below [`LIMIT`](crate::LIMIT) bytes.
    fn update(&mut self, piece: &[u8])
        requires { taken_of self.old + length piece.now < LIMIT }
        // If it may have taken a message, it may then have taken that message and the piece.
        ensures holds { (m : ByteString) → holds self.old m → holds self.new (m ++ piece.now) }
        ensures taken { taken_of self.new ≡ taken_of self.old + length piece.now }
        ensures kind { kind_of self.new ≡ kind_of self.old };

    /// Takes the message's next piece. Returns `MessageTooLong` if and only if the message would have
    /// [`LIMIT`](crate::LIMIT) bytes or more; the hasher is then unchanged.
    fn try_update(&mut self, piece: &[u8]) -> Result<(), MessageTooLong>
        ensures fits { IsOk result ↔ (taken_of self.old + length piece.now < LIMIT) }

        // What it has taken then, and what stays.
        ensures holds { OnOk result ((m : ByteString) → holds self.old m
            → holds self.new (m ++ piece.now)) }
        ensures taken { OnOk result (taken_of self.new ≡ taken_of self.old + length piece.now) }
        ensures kind { kind_of self.new ≡ kind_of self.old }
        ensures err { OnErr result (self.new ≡ self.old) }
    {
        MessageTooLong::check(self.taken(), piece)?;
        self.update(piece);
        Ok(())
    }

    /// Returns the digest of the message that was taken, of the kind's length.
    fn finish(self) -> Digest
        ensures value { (m : ByteString) → holds self m → result ≡ message_digest (kind_of self) m }
        ensures len { length result ≡ (kind_of self).len };

    // The number of bytes that it has taken is the length of its message.
    ghost counts: { (h : Self) (m : ByteString) → holds h m → taken_of h ≡ length m };
}
