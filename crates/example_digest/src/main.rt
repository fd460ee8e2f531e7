//! Says whether a message has a digest that is known in digits.
#![tactic(auto)]

ghost use Rattle.digest_kinds.specs.{Bytes.LIMIT, Digest.IsDigits, Kind.message_digest};
ghost use Rattle.hex.specs.Hex.{decode_of};
ghost use Rattle.std.specs.Prelude.{◌≡◌, ◌<◌, ◌↔◌, IsTrue, Ok, length};

use digest_kinds::{Algo, Digest, Kind};
use std::io;

/// Returns whether these digits, in either case, spell the message's digest of this kind.
fn has_digest(kind: Kind, message: &[u8], digits: &[u8]) -> bool
    requires { length message.now < LIMIT }
    ensures { IsTrue result ↔ (IsDigits digits.now
        × (decode_of digits.now ≡ Ok (message_digest kind message.now))) }
{
    match Digest::from_hex(digits) {
        Some(known) => known.same(&kind.digest(message)),
        None => false,
    }
}

fn main(rt: HostRuntime) -> io::Result<()> {
    let kind = Kind::of(Algo::Md5);
    let digits = b"900150983CD24FB0D6963F7D28E17F72";
    println!(rt; "{kind} of abc: {}", has_digest(kind, b"abc", digits))
}
