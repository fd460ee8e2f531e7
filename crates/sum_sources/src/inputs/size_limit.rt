//! Reading up to the limit of 2^61 bytes.
ghost use Rattle.digest_kinds.specs.Bytes.{LIMIT};
ghost use Rattle.std.specs.{Prelude.◌<◌, Prelude.◌≡◌, Prelude.length, Prelude.take, Result.result_unwrap_or};
ghost use Rattle.sum_sources.specs.declared.inputs.input.TheConstants.{PIECE};
ghost use Rattle.sum_sources.specs.private.SizeLimit.{CountsLimited, CountsBytes, AddsPast};

use crate::{Fault, Input, PIECE};
use digest_kinds::LIMIT;

/// Reads as `Input::read` does, from an input that has given `taken` bytes so far, fewer than `LIMIT`. At most
/// `LIMIT - 1` of its bytes count. If it has one more byte, that is `Fault::Other`.
pub(crate) fn read_limited<I: Input>(
    input: &mut I,
    taken: &mut u64,
    buffer: &mut [u8; PIECE],
) -> Result<usize, Fault>
    requires { taken.old < LIMIT }

    // Bounds.
    ensures count { CountsLimited taken.old taken.new result }
    ensures size { length buffer.new ≡ PIECE }

    // What the input gave.
    ensures input { CountsBytes taken.old taken.new (I.state input.old) (I.state input.new) }
    ensures reads { AddsPast taken.old (I.state input.old).reads (I.state input.new).reads
        (take (result_unwrap_or result 0) buffer.new) result }
{
    // If no more bytes count, reading one shows whether the input ends there.
    let size = (LIMIT - 1 - *taken).min(PIECE as u64).max(1) as usize;
    let n = input.read(&mut buffer[..size])?;
    *taken += n as u64;
    if *taken == LIMIT {
        return Err(Fault::Other);
    }
    Ok(n)
}
