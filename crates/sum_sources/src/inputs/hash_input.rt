//! The digest of an input.
ghost use Rattle.std.specs.Prelude.{◌≡◌, [], length, IfOk};
ghost use Rattle.sum_sources.specs.inputs.HashInput.{HashesInput};

use crate::inputs::size_limit::read_limited;
use crate::{Fault, Input, PIECE};
use digest_kinds::{Digest, Hasher};

/// Reads what remains of `input`, which hasn't ended, and returns the digest that `hasher`, a new one, computes of
/// these bytes, or the fault with which the input ends. If `LIMIT` bytes or more remain, that is `Fault::Other`.
pub fn hash_input<I: Input, H: Hasher + Drop>(input: &mut I, hasher: H) -> Result<Digest, Fault>
    requires { H.holds hasher [] }
    ensures hashed { HashesInput (H.kind_of hasher) (I.state input.old) (I.state input.new) result }
{
    let mut buffer: [u8; PIECE] = [0; PIECE];
    hash_input_with_buffer(input, hasher, &mut buffer)
}

/// Does what `hash_input` does, but reads into the caller's buffer, so that one serves many inputs. The buffer's
/// previous content doesn't matter; its content afterwards is unspecified.
pub fn hash_input_with_buffer<I: Input, H: Hasher + Drop>(
    input: &mut I,
    mut hasher: H,
    buffer: &mut [u8; PIECE],
) -> Result<Digest, Fault>
    requires { H.holds hasher [] }
    ensures hashed { HashesInput (H.kind_of hasher) (I.state input.old) (I.state input.new) result }
    ensures len { IfOk result (λ d. length d ≡ (H.kind_of hasher).len) }
{
    let mut taken = 0;
    loop {
        let n = match read_limited(input, &mut taken, buffer) {
            Ok(n) => n,
            Err(fault) => return Err(fault),
        };
        if n == 0 {
            return Ok(hasher.finish());
        }
        hasher.update(&buffer[..n]);
    }
}
