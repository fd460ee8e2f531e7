//! Callers that read the header of an input themselves, and hand on the rest of it.
ghost use Rattle.std.specs.Prelude.{◌≡◌, ◌∷◌, [], drop, take, IfOk, IfSome};
ghost use Rattle.digest_kinds.specs.Kind.{message_digest};
ghost use Rattle.sum_sources.specs.{LineReader.content_past, LineReader.remaining_content};
ghost use Rattle.sum_sources.specs.LineReader.{lines_in};
ghost use Rattle.sum_sources.specs.inputs.Input.{Content, Fits, clip, empty_reads};

use digest_kinds::{Digest, Hasher};
use std::alloc::Allocator;
use sum_sources::{Fault, Input, LineReader, Next, hash_input};

/// Reads the first three bytes of `input` into `header`, and returns the digest of what follows them. Fails with
/// `Fault::Other` if one read doesn't give these.
pub fn hash_past_header<I: Input, H: Hasher + Drop>(
    input: &mut I,
    header: &mut [u8; 3],
    hasher: H,
) -> Result<Digest, Fault>
    requires new { (I.state input.old).reads ≡ empty_reads }
    requires hasher { H.holds hasher [] }
    // For each content that all reads of the input fit, the header's included.
    ensures { (c : Content) → Fits (I.state input.new).reads c
        → IfOk result (λ d. (take 3 c.bytes ≡ header.new)
        × (d ≡ message_digest (H.kind_of hasher) (drop 3 c.bytes))) }
{
    if input.read(header)? < 3 {
        return Err(Fault::Other);
    }
    hash_input(input, hasher)
}

/// Puts the line that follows the first three bytes of `input` into `line`, and returns the reader of the lines after
/// it; or nothing if one read doesn't give these bytes or no line follows them.
pub fn line_past_header<I: Input + Drop, A: Allocator>(
    mut input: I,
    line: &mut Vec<u8, A>,
) -> Option<LineReader<I>>
    requires { (I.state input).reads ≡ empty_reads }
    // For each content that all reads of the input fit, the header's included.
    ensures { IfSome result (λ r. (c : Content) → Fits (I.state r.input).reads c
        → lines_in (clip (content_past 3 c))
        ≡ line.new.items ∷ lines_in (remaining_content r (content_past 3 c))) }
{
    let mut header = [0; 3];
    let Ok(3) = input.read(&mut header) else {
        return None;
    };
    let mut reader = LineReader::new(input);
    match reader.next_line(line) {
        Ok(Next::Line) => Some(reader),
        _ => None,
    }
}
