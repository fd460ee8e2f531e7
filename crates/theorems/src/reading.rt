//! Reading: inputs, files and lines, up to their end; and standard input beside files.
ghost use Rattle.digest_kinds.specs.{Bytes.ByteString, Bytes.LIMIT, Kind.message_digest};
ghost use Rattle.std.specs.Prelude.{◌≡◌, ◌≢◌, ◌↔◌, ◌<◌, ◌∷◌, ◌++◌, [], Some, Ok, Err, IfOk, IfSome, codes};
ghost use Rattle.std.specs.Prelude.{◌≤◌, ◌^◌, IsTrue, List, ℕ, false, length, suc, take};
ghost use Rattle.sum_engine.specs.{Behavior.World, Execution.Agrees};
ghost use Rattle.sum_sources.specs.LineReader.{IsReading, reads_of, remaining_content};
ghost use Rattle.sum_sources.specs.{declared.fault.Fault.Fault as FaultValue};
ghost use Rattle.sum_sources.specs.{Content.limit, LineReader.lines_in, declared.inputs.input.TheConstants.PIECE};
ghost use Rattle.sum_sources.specs.declared.fault.Ending.{Ending as EndingValue, TheVariants.Whole, TheVariants.Broken};
ghost use Rattle.sum_sources.specs.declared.inputs.input.Phase.TheVariants.{Unfinished, Ended, Past};
ghost use Rattle.sum_sources.specs.inputs.Input.{Content, Fits, Reads, clip, empty_reads, reads_past};
ghost use Rattle.sum_sources.specs.inputs.InputLog.{empty_content, no_reads};
ghost use Rattle.sum_sources.specs.{inputs.Stdin.closable_state, inputs.Stdin.is_untaken};
ghost use Rattle.sum_sources.specs.inputs.Stdin.{bad_descriptor};
ghost use Rattle.sum_sources.specs.sources.{Source.names_of, Source.state_after_opening, Source.state_with_opening};
ghost use Rattle.sum_sources.specs.sources.Source.{Answers, ToldAnswer, TellsAll, ToldAnswers};
ghost use Rattle.sum_sources.specs.sources.{Source.times, WithStdin.TakesStdin, WithStdin.is_dash};
ghost use Rattle.sum_sources.specs.sources.{Opened.opened_state, Opened.input_in, Source.IsOpen};
ghost use Rattle.sum_sources.specs.sources.WithStdin.{answer_of_both, other_openings, pairs_with_stdin};
ghost use Rattle.sum_sources.specs.sources.WithStdin.{parts_after_closing};
ghost use Rattle.sum_sources.specs.sources.WithStdinView.{both_state, source_in, stdin_in};

use digest_kinds::{Digest, Hasher};
use std::alloc::Allocator;
use std::io::Read;
use sum_engine::Inputs;
use sum_engine::laws::told_agree;
use sum_sources::laws::{stdin_is_taken, with_stdin_tells};
use sum_sources::{
    Fault, FromRead, Given, HashFault, Input, LineReader, LineStop, Next, OpenFault, Source, Stdin,
    WithStdin, hash_file, hash_input,
};

/// `hash_input` returns the digest of an input that wasn't read before if and only if its content ends whole, and a
/// fault if and only if it ends with that. A content of 2^61 bytes or more ends with a fault (`clip`).
pub fn input_hashed<I: Input, H: Hasher + Drop>(input: &mut I, hasher: H) -> Result<Digest, Fault>
    requires unread { (I.state input.old).reads ≡ empty_reads }
    requires hasher { H.holds hasher [] }
    ensures digest { (content : Content) → Fits (I.state input.new).reads content
        → ((clip content).ending ≡ Whole)
        ↔ (result ≡ Ok (message_digest (H.kind_of hasher) (clip content).bytes)) }
    ensures fault { (content : Content) → Fits (I.state input.new).reads content
        → (fault : FaultValue) → ((clip content).ending ≡ Broken fault) ↔ (result ≡ Err fault) }
{
    hash_input(input, hasher)
}

/// The same of an input that was read before, but not to its end or a fault, and of the content that was left.
pub fn rest_hashed<I: Input, H: Hasher + Drop>(input: &mut I, hasher: H) -> Result<Digest, Fault>
    requires unfinished { (I.state input.old).reads.phase ≡ Unfinished }
    requires hasher { H.holds hasher [] }
    ensures digest { (left : Content) → Fits
        (reads_past (length (I.state input.old).reads.bytes) (I.state input.new).reads) left
        → ((clip left).ending ≡ Whole)
        ↔ (result ≡ Ok (message_digest (H.kind_of hasher) (clip left).bytes)) }
    ensures fault { (left : Content) → Fits
        (reads_past (length (I.state input.old).reads.bytes) (I.state input.new).reads) left
        → (fault : FaultValue) → ((clip left).ending ≡ Broken fault) ↔ (result ≡ Err fault) }
{
    hash_input(input, hasher)
}

/// `hash_input` returns a digest only at the end of the input, and never reads past its end or its fault, if it hadn't
/// ended before. Its reads only grow.
pub fn hashed_to_end<I: Input, H: Hasher + Drop>(input: &mut I, hasher: H) -> Result<Digest, Fault>
    requires unfinished { (I.state input.old).reads.phase ≡ Unfinished }
    requires hasher { H.holds hasher [] }
    ensures end { IfOk result (λ _. (I.state input.new).reads.phase ≡ Ended Whole) }
    ensures past { (I.state input.new).reads.phase ≢ Past }
    ensures before { (content : Content) → Fits (I.state input.new).reads content
        → Fits (I.state input.old).reads content }
{
    hash_input(input, hasher)
}

/// `hash_file` returns a digest only of a file that it opened, read to its end and closed.
pub fn file_hashed<S: Source, H: Hasher + Drop>(
    source: &mut S,
    name: &[u8],
    hasher: H,
) -> Result<Digest, HashFault>
    requires { H.holds hasher [] }
    ensures { IfOk result (λ found. (reads : Reads) × (reads.phase ≡ Ended Whole) × (S.state source.new
        ≡ state_with_opening (S.state source.old) name.now (Some (Ok reads)))
        × ((content : Content) → Fits reads content
        → found ≡ message_digest (H.kind_of hasher) (clip content).bytes)) }
{
    hash_file(source, name, hasher)
}

/// `hash_file` returns that a file can't be opened only with the fault of its opening.
pub fn fault_of_opening<S: Source, H: Hasher + Drop>(
    source: &mut S,
    name: &[u8],
    hasher: H,
) -> Result<Digest, HashFault>
    requires { H.holds hasher [] }
    ensures { (fault : FaultValue) → result ≡ Err (HashFault.Open (OpenFault.Fault fault))
        → S.state source.new ≡ state_with_opening (S.state source.old) name.now (Some (Err fault)) }
{
    hash_file(source, name, hasher)
}

/// Before a new reader all of the content remains, as far as the limit allows. The premise: the input hasn't ended.
pub fn lines_begin<I: Input>(input: I) -> LineReader<I>
    requires { (I.state input).reads.phase ≡ Unfinished }
    ensures reading { IsReading I.state result }
    ensures all { (content : Content) → remaining_content result content ≡ clip content }
{
    LineReader::new(input)
}

/// `next_line` returns the first of the lines that remain, and those after it remain then. If it returns that none is
/// left, or a fault, none is, and the content ends so. The premise: the input hadn't ended when the reader was made.
pub fn next_line_read<I: Input, A: Allocator>(
    reader: &mut LineReader<I>,
    line: &mut Vec<u8, A>,
) -> Result<Next, LineStop>
    requires { IsReading I.state reader.old }
    ensures reading { IsReading I.state reader.new }
    ensures before { (content : Content) → Fits (reads_of I.state reader.new) content
        → Fits (reads_of I.state reader.old) content }
    ensures line { result ≡ Ok Next.Line → (content : Content)
        → Fits (reads_of I.state reader.new) content → lines_in (remaining_content reader.old content)
        ≡ line.new.items ∷ lines_in (remaining_content reader.new content) }
    ensures end { result ≡ Ok Next.NoMore → (content : Content)
        → Fits (reads_of I.state reader.new) content → let left = remaining_content reader.old content in
        (lines_in left ≡ []) × (left.ending ≡ Whole) }
    ensures fault { (fault : FaultValue) → result ≡ Err (LineStop.Fault fault) → (content : Content)
        → Fits (reads_of I.state reader.new) content → let left = remaining_content reader.old content in
        (lines_in left ≡ []) × (left.ending ≡ Broken fault) }
{
    reader.next_line(line)
}

/// `next_line` returns that no line is left only at the end of the input, and never reads past it or past a fault, nor
/// more than 2^61 bytes.
pub fn lines_to_end<I: Input, A: Allocator>(
    reader: &mut LineReader<I>,
    line: &mut Vec<u8, A>,
) -> Result<Next, LineStop>
    requires { IsReading I.state reader.old }
    ensures end { result ≡ Ok Next.NoMore
        → (I.state reader.new.input).reads.phase ≡ Ended Whole }
    ensures past { (I.state reader.new.input).reads.phase ≢ Past }
    ensures limit { reader.new.taken ≤ LIMIT }
{
    reader.next_line(line)
}

/// `PIECE`, the most that a reader reads ahead of its lines, is 8,192 bytes.
pub fn piece_is_8192()
    ensures piece { PIECE ≡ 8192 }
{}

/// `LIMIT`, below which a message must stay, is 2^61 bytes, and contents are cut (`clip`) by the same number.
#[tactic(auto, unfolding(sum_sources::specs::Content::limit))]
pub fn limit_is_2_to_61()
    ensures limit { LIMIT ≡ 2 ^ 61 }
    ensures clip { limit ≡ 2 ^ 61 }
{}

/// The log of a reader whose bytes are known has what it gave: a read gives the first of the bytes that were left, and
/// an end only if none was.
pub fn log_of_known_reader<R: Read>(input: &mut FromRead<R>, buf: &mut [u8]) -> Result<usize, Fault>
    ensures given { (left : ByteString) → R.remaining input.old.reader ≡ Some left
        → IfOk result (λ n. (rest : ByteString) × (left ≡ take n buf.new ++ rest)
        × (R.remaining input.new.reader ≡ Some rest)) }
    ensures logged { IfOk result (λ n.
        input.new.log.reads.bytes ≡ input.old.log.reads.bytes ++ take n buf.new) }
    ensures end { (left : ByteString) → R.remaining input.old.reader ≡ Some left
        → input.old.log.reads.phase ≡ Unfinished → input.new.log.reads.phase ≡ Ended Whole → left ≡ [] }
{
    input.read(buf)
}

/// The first opening of `-` gives standard input, and each later one an empty input; the source of files is as before.
/// Any other name is opened in that source, and standard input is as before.
pub fn dash_opened<I: Input + Drop, S: Source>(
    inputs: &mut WithStdin<I, S>,
    name: &[u8],
) -> Result<<WithStdin<I, S> as Source>::File, OpenFault>
    ensures dash { IsTrue (is_dash name.now) → IfOk result (λ file.
        TakesStdin (stdin_in inputs.old) (stdin_in inputs.new) (input_in file)) }
    ensures no_fault { IsTrue (is_dash name.now) → (fault : OpenFault) → result ≢ Err fault }
    ensures source { IsTrue (is_dash name.now) → source_in inputs.new ≡ source_in inputs.old }
    ensures other { is_dash name.now ≡ false → S.state (source_in inputs.new)
        ≡ state_after_opening (S.state (source_in inputs.old)) name.now result }
    ensures stdin { is_dash name.now ≡ false → stdin_in inputs.new ≡ stdin_in inputs.old }
{
    inputs.open_file(name)
}

/// A closed standard input gives, the first time, an input in memory: no bytes, and the fault *Bad file descriptor*.
pub fn closed_stdin<I: Input + Drop>() -> Given<I>
    ensures { closable_state I.state result ≡ record no_reads {
      told = Some (record { bytes = []; ending = Broken bad_descriptor });
    } }
{
    let mut stdin = Stdin::closed();
    stdin.take()
}

/// If standard input and the answers of a source are told, so are those of both: the first opening of `-` gives
/// standard input, each later one an empty content, and any other name what it gives in the source.
pub fn both_told()
    ensures { (stdin : Content) (tells : ToldAnswers) (told : List ToldAnswer) (answer : Answers)
        → TellsAll tells told answer → (both : Answers)
        × TellsAll (answer_of_both tells) (pairs_with_stdin (Some stdin) told) both
        × (both (codes "-") 0 ≡ Ok stdin) × ((k : ℕ) → both (codes "-") (suc k) ≡ Ok empty_content)
        × ((name : ByteString) (k : ℕ) → is_dash name ≡ false → both name k ≡ answer name k) }
{
    with_stdin_tells();
}

/// What was opened by the name `-` is put back into standard input. Any other file is closed in the source of files.
pub fn file_closed<I: Input + Drop, S: Source>(
    inputs: &mut WithStdin<I, S>,
    file: <WithStdin<I, S> as Source>::File,
)
    requires { IsOpen (answer_of_both S.tells) (both_state inputs.old) (opened_state file) }
    ensures { (stdin_in inputs.new, S.state (source_in inputs.new)) ≡ parts_after_closing S.File.state
        (input_in file) (stdin_in inputs.old) (S.state (source_in inputs.old)) }
{
    inputs.close_file(file);
}

/// The source of files has the same openings in the same order, except those of `-`.
pub fn others_in_source<I: Input, S: Source>(inputs: &WithStdin<I, S>) -> &S
    ensures { other_openings (S.state result.now).openings
        ≡ other_openings (both_state inputs.now).openings }
{
    inputs.source()
}

/// Standard input was taken if and only if `-` was opened.
pub fn taken_if_opened<I: Input, S: Source>(inputs: &WithStdin<I, S>)
    ensures { (is_untaken (stdin_in inputs.now) ≡ false)
        ↔ (0 < times (codes "-") (names_of (both_state inputs.now).openings)) }
{
    stdin_is_taken(inputs);
}

/// As long as neither its end nor a fault was read, each content fits that begins with what was read.
pub fn any_rest_fits()
    ensures { (bytes rest : ByteString) (ending : EndingValue)
        → Fits (record { bytes = bytes; phase = Unfinished }) (record { bytes = bytes ++ rest; ending = ending }) }
{}

/// Some world agrees with all that was read, and has each answer that is told.
pub fn some_world_agrees<S: Source>(inputs: &Inputs<S>)
    ensures { (world : World) × Agrees world inputs.now × ((name : ByteString) (k : ℕ)
        → IfSome (S.tells inputs.now.told name k) (λ told. world.answer name k ≡ told)) }
{
    told_agree(inputs);
}
