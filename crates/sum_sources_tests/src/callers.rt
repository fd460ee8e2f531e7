//! Callers of readers and of told sources that need what no program here does.
ghost use Rattle.std.specs.{Option.option_map, Prelude.ℕ, Prelude.◌≡◌, Prelude.◌<◌};
ghost use Rattle.std.specs.Prelude.{◌≤◌, ◌+◌, ◌∷◌, List, Ok, Err, IfOk, max, slice_get};
ghost use Rattle.digest_kinds.specs.Bytes.{ByteString, LIMIT};
ghost use Rattle.sum_sources.specs.LineReader.{HasNoNewline, lines_in};
ghost use Rattle.sum_sources.specs.inputs.Input.{Content, Fits, clip, empty_reads};
ghost use Rattle.sum_sources.specs.sources.{Source.first_answer, Source.names_of};
ghost use Rattle.sum_sources.specs.sources.{ToldSource.told_source_state, WithStdin.other_openings};
ghost use Rattle.sum_sources.specs.sources.WithStdinView.{both_state, source_in};

use digest_kinds::LIMIT;
use std::alloc::Allocator;
use sum_sources::laws::all_reads;
use sum_sources::{
    Answer, Ending, Fault, Input, LineReader, LineStop, Next, NoRoom, PIECE, Told, ToldSource,
    WithStdin,
};

/// Returns how many more bytes an input may give before it is too long.
pub fn bytes_left<I: Input>(reader: &LineReader<I>) -> u64
    ensures { result + reader.now.taken ≡ LIMIT }
{
    LIMIT - reader.taken()
}

/// Returns how many bytes an input gave beyond one for each line.
pub fn bytes_beyond_lines<I: Input>(reader: &LineReader<I>) -> u64
    ensures { result + reader.now.lines ≡ reader.now.taken }
{
    reader.taken() - reader.lines()
}

/// Asks for a line of which all was read ahead. So nothing is read of the input.
pub fn ask_ahead<I: Input, A: Allocator>(
    reader: &mut LineReader<I>,
    line: &mut Vec<u8, A>,
) -> Result<Next, LineStop>
    requires { ¬ HasNoNewline reader.old.ahead }
    ensures { reader.new.input ≡ reader.old.input }
{
    reader.next_line(line)
}

/// Asks for a line. Returns the answer, and how many bytes were read beyond one for each line: at least one if memory
/// for the line was refused.
pub fn ask<I: Input, A: Allocator>(
    reader: &mut LineReader<I>,
    line: &mut Vec<u8, A>,
) -> (Result<Next, LineStop>, u64)
    ensures { result.0 ≡ Err LineStop.Memory → 0 < result.1 }
{
    let next = reader.next_line(line);
    (next, reader.taken() - reader.lines())
}

/// Reads the first line of an unread input, and gives the input back: its own reads show which line that is.
pub fn first_line<I: Input, A: Allocator>(
    input: I,
    line: &mut Vec<u8, A>,
) -> (Result<Next, LineStop>, I)
    requires { (I.state input).reads ≡ empty_reads }
    ensures { result.0 ≡ Ok Next.Line → (content : Content) → Fits (I.state result.1).reads content
        → (later : List ByteString) × (lines_in (clip content) ≡ line.new.items ∷ later) }
{
    all_reads::<I>();
    let mut reader = LineReader::new(input);
    let next = reader.next_line(line);
    (next, reader.into_inner())
}

/// Reads twice from bytes in memory, of which each read gives at most `piece`; 0 counts as 1.
pub fn read_piece(content: &[u8], piece: usize, buf: &mut [u8]) -> Result<usize, Fault>
    ensures { IfOk result (λ n. n ≤ max piece 1) }
{
    let mut input = Told::new(content, Ending::Whole, piece);
    input.read(buf)?;
    input.read(buf)
}

/// Creates a source of one file, and offers another answer to its name, which never counts.
pub fn one_file<'a, A: Allocator + Copy>(
    alloc: A,
    name: &[u8],
    content: &'a [u8],
    other: Answer<'a>,
) -> Result<ToldSource<'a, A>, NoRoom>
    ensures { IfOk result (λ files. (k : ℕ) →
        first_answer (told_source_state files).told name.now k
        ≡ Ok (record { bytes = content.entry.now; ending = Ending.Whole })) }
{
    let mut files = ToldSource::new(alloc, PIECE);
    files.add(name, Answer::Content(content, Ending::Whole))?;
    let _ = files.add(name, other);
    Ok(files)
}

/// Returns the name at place `i` of those that were opened, without `-`. The premise: below, `-` was never opened.
pub fn asked_file<'a, 'b, I: Input, A: Allocator + Copy>(
    inputs: &'a WithStdin<I, ToldSource<'b, A>>,
    i: usize,
) -> Option<&'a [u8]>
    requires { let below = (told_source_state (source_in inputs.now)).openings in
        other_openings below ≡ below }
    ensures { option_map (λ n. n.now) result
        ≡ slice_get (names_of (other_openings (both_state inputs.now).openings)) i }
{
    inputs.source().asked_name(i)
}
