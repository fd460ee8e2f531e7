//! Stops: when there is no memory, or a write failed, and that a stop is final.
ghost use Rattle.digest_kinds.specs.Bytes.{ByteString};
ghost use Rattle.digests.specs.ToolRun.{meaning};
ghost use Rattle.std.specs.Prelude.{◌≡◌, ◌≢◌, ◌<◌, ◌+◌, ◌⊎◌, ◌++◌, ◌∷◌, [], List, None, Ok, Err, OnOk, OnErr, length};
ghost use Rattle.sum_engine.specs.Behavior.{Step, World};
ghost use Rattle.sum_engine.specs.{Execution.Agrees, Execution.world_at, Streams.failures_of};
ghost use Rattle.sum_engine.specs.check.CheckOne.{check_behavior};
ghost use Rattle.sum_engine.specs.declared.check.progress.Progress.TheVariants.{Going};
ghost use Rattle.sum_settings.specs.declared.settings.{Settings.Settings as SettingsOf};
ghost use Rattle.sum_settings.specs.declared.stop.Stop.TheVariants.{Memory, Write};
ghost use Rattle.sum_sources.specs.LineReader.{IsReading, reads_of, remaining_content};
ghost use Rattle.sum_sources.specs.inputs.Input.{Content, Fits};
ghost use Rattle.sum_sources.specs.sources.ToldSource.{told_source_state};
ghost use Rattle.sum_words.specs.{Arguments.FitsArguments, CommandLine.NeedsMemory, parsing.Request.request};
ghost use Rattle.sum_words.specs.declared.parsing.request.Request.TheVariants.{Generate, Help, Version};
ghost use Rattle.sum_words.specs.parsing.WordFault.{WordFaultValue};
ghost use Rattle.theorems.specs.StopsBeforeStep.{StopsBeforeStep};

use digests::run;
use std::alloc::Allocator;
use sum_engine::laws::told_agree;
use sum_engine::{
    CheckSettings, Checker, Inputs, LineVerdict, Progress, Settings, Stop, Streams, Verdicts,
    check_one, generate_one,
};
use sum_lines::Sink;
use sum_sources::{
    Answer, Input, LineReader, LineStop, Next, NoRoom, OpenFault, Source, ToldSource,
};
use sum_words::{Arguments, CommandLine, Tool, Words, read_command_line};

/// A source refuses memory for a file once if `open_file` returns so, and not otherwise.
pub fn opening_refused<S: Source>(source: &mut S, name: &[u8]) -> Result<S::File, OpenFault>
    ensures refused { result ≡ Err OpenFault.Memory
        → (S.state source.new).refusals ≡ (S.state source.old).refusals + 1 }
    ensures otherwise { result ≢ Err OpenFault.Memory
        → (S.state source.new).refusals ≡ (S.state source.old).refusals }
{
    source.open_file(name)
}

/// `generate_one` is out of memory only if the source was refused it, once. Then neither output has changed.
pub fn hash_refused<S: Source, O: Sink, E: Sink>(
    settings: &Settings,
    tool: &str,
    name: &[u8],
    streams: &mut Streams<S, O, E>,
) -> Result<bool, Stop>
    ensures refused { result ≡ Err Memory
        → streams.new.inputs.refusals ≡ streams.old.inputs.refusals + 1 }
    ensures otherwise { result ≢ Err Memory
        → streams.new.inputs.refusals ≡ streams.old.inputs.refusals }
    ensures outputs { result ≡ Err Memory → streams.new.outputs ≡ streams.old.outputs }
{
    let result = generate_one(settings, tool, name, streams);
    told_agree(&streams.inputs);
    result
}

/// There is always memory for help, the version and the lines of a fault of the words.
pub fn memory_for_texts<A: Allocator + Copy, S: Source, O: Sink, E: Sink>(
    alloc: A,
    tool: Tool,
    words: &Words<A>,
    streams: &mut Streams<S, O, E>,
) -> Result<u8, Stop>
    ensures help { request tool words.now ≡ Ok Help → result ≢ Err Memory }
    ensures version { request tool words.now ≡ Ok Version → result ≢ Err Memory }
    ensures fault { (fault : WordFaultValue) → request tool words.now ≡ Err fault → result ≢ Err Memory }
{
    let result = run(alloc, tool, words, streams);
    told_agree(&streams.inputs);
    result
}

/// `run` is out of memory in hashing names only if the source was refused it, once. Without a stop it wasn't refused.
pub fn run_refused<A: Allocator + Copy, S: Source, O: Sink, E: Sink>(
    alloc: A,
    tool: Tool,
    words: &Words<A>,
    streams: &mut Streams<S, O, E>,
) -> Result<u8, Stop>
    ensures hashing { (settings : SettingsOf) (names : List ByteString)
        → request tool words.now ≡ Ok (Generate settings names) → result ≡ Err Memory
        → streams.new.inputs.refusals ≡ streams.old.inputs.refusals + 1 }
    ensures otherwise { result ≢ Err Memory
        → streams.new.inputs.refusals ≡ streams.old.inputs.refusals }
{
    let result = run(alloc, tool, words, streams);
    told_agree(&streams.inputs);
    result
}

/// Out of memory, `check_one` has done the first n steps, as `run`, by the same cause. Without that stop, the source
/// wasn't refused memory.
pub fn check_refused<A: Allocator + Copy, S: Source, O: Sink, E: Sink>(
    alloc: A,
    settings: CheckSettings,
    tool: &str,
    name: &[u8],
    streams: &mut Streams<S, O, E>,
) -> Result<bool, Stop>
    ensures cause { result ≡ Err Memory → (w : World) → Agrees w streams.new.inputs → StopsBeforeStep
        (check_behavior settings tool.now (world_at w streams.old.inputs) name.now).steps
        streams.old streams.new }
    ensures otherwise { result ≢ Err Memory
        → streams.new.inputs.refusals ≡ streams.old.inputs.refusals }
{
    let result = check_one(alloc, settings, tool, name, streams);
    told_agree(&streams.inputs);
    result
}

/// `next_line` is out of memory only if bytes of the line were read ahead, and so were still to come.
pub fn line_needs_memory<I: Input, A: Allocator>(
    reader: &mut LineReader<I>,
    line: &mut Vec<u8, A>,
) -> Result<Next, LineStop>
    ensures ahead { result ≡ Err LineStop.Memory → 0 < length reader.new.ahead }
    ensures remaining { IsReading I.state reader.old → result ≡ Err LineStop.Memory
        → (content : Content) → Fits (reads_of I.state reader.new) content
        → 0 < length (remaining_content reader.old content).bytes }
{
    reader.next_line(line)
}

/// `Verdicts::next` is out of memory only if the source was refused it, once, or bytes were read ahead.
pub fn verdict_needs_memory<A: Allocator, I: Input, S: Source>(
    verdicts: &mut Verdicts<I>,
    line: &mut Vec<u8, A>,
    inputs: &mut Inputs<S>,
) -> Result<Option<LineVerdict>, LineStop>
    requires { verdicts.old.outcome ≡ None }
    ensures { result ≡ Err LineStop.Memory
        → (inputs.new.refusals ≡ inputs.old.refusals + 1)
        ⊎ ((inputs.new ≡ inputs.old) × (0 < length verdicts.new.reader.ahead)) }
{
    verdicts.next(line, inputs)
}

/// `Checker::step` is out of memory only for one of these causes, and then neither output has changed. Otherwise the
/// source was refused none.
pub fn step_needs_memory<A: Allocator, I: Input, S: Source, O: Sink, E: Sink>(
    checker: &mut Checker<I>,
    line: &mut Vec<u8, A>,
    streams: &mut Streams<S, O, E>,
) -> Result<Progress, Stop>
    requires { checker.old.outcome ≡ None }
    ensures cause { result ≡ Err Memory
        → (streams.new.inputs.refusals ≡ streams.old.inputs.refusals + 1)
        ⊎ ((streams.new.inputs ≡ streams.old.inputs) × (0 < length checker.new.verdicts.reader.ahead)) }
    ensures outputs { result ≡ Err Memory → streams.new.outputs ≡ streams.old.outputs }
    ensures otherwise { result ≢ Err Memory
        → streams.new.inputs.refusals ≡ streams.old.inputs.refusals }
{
    checker.step(line, streams)
}

/// `read_command_line` is out of memory only if the arguments need memory.
pub fn command_line_needs_memory<A: Allocator + Copy, G: Arguments>(
    alloc: A,
    arguments: &mut G,
) -> Result<CommandLine<A>, NoRoom>
    requires { (G.state arguments.old).given ≡ [] }
    ensures { (all : List ByteString) → FitsArguments (G.state arguments.new) all
        → OnErr result (NeedsMemory all) }
{
    read_command_line(alloc, arguments)
}

/// `Words::add_bytes` adds a word at the end, or leaves the words as they were.
pub fn word_added<A: Allocator>(words: &mut Words<A>, word: &[u8]) -> Result<(), NoRoom>
    ensures ok { OnOk result (words.new ≡ words.old ++ word.now ∷ []) }
    ensures err { OnErr result (words.new ≡ words.old) }
{
    words.add_bytes(word)
}

/// `Words::add` does the same with a string.
pub fn text_added<A: Allocator>(words: &mut Words<A>, word: &str) -> Result<(), NoRoom>
    ensures ok { OnOk result (words.new ≡ words.old ++ word.now ∷ []) }
    ensures err { OnErr result (words.new ≡ words.old) }
{
    words.add(word)
}

/// `ToldSource::add` leaves the source as it was, if memory was refused.
pub fn pair_refused<'a, A: Allocator + Copy>(
    source: &mut ToldSource<'a, A>,
    name: &[u8],
    answer: Answer<'a>,
) -> Result<(), NoRoom>
    ensures { OnErr result (told_source_state source.new ≡ told_source_state source.old) }
{
    source.add(name, answer)
}

/// `run` returns a write fault only if a call of one output failed, and no call of the other. Otherwise none failed.
pub fn run_write_fault<A: Allocator + Copy, S: Source, O: Sink, E: Sink>(
    alloc: A,
    tool: Tool,
    words: &Words<A>,
    streams: &mut Streams<S, O, E>,
) -> Result<u8, Stop>
    ensures fault { let (out, err) = failures_of streams.old.outputs in result ≡ Err Write
        → (failures_of streams.new.outputs ≡ (out + 1, err)) ⊎ (failures_of streams.new.outputs ≡ (out, err + 1)) }
    ensures otherwise { result ≢ Err Write → failures_of streams.new.outputs ≡ failures_of streams.old.outputs }
{
    run(alloc, tool, words, streams)
}

/// So does `generate_one`.
pub fn hash_write_fault<S: Source, O: Sink, E: Sink>(
    settings: &Settings,
    tool: &str,
    name: &[u8],
    streams: &mut Streams<S, O, E>,
) -> Result<bool, Stop>
    ensures fault { let (out, err) = failures_of streams.old.outputs in result ≡ Err Write
        → (failures_of streams.new.outputs ≡ (out + 1, err)) ⊎ (failures_of streams.new.outputs ≡ (out, err + 1)) }
    ensures otherwise { result ≢ Err Write → failures_of streams.new.outputs ≡ failures_of streams.old.outputs }
{
    generate_one(settings, tool, name, streams)
}

/// So does `check_one`.
pub fn check_write_fault<A: Allocator + Copy, S: Source, O: Sink, E: Sink>(
    alloc: A,
    settings: CheckSettings,
    tool: &str,
    name: &[u8],
    streams: &mut Streams<S, O, E>,
) -> Result<bool, Stop>
    ensures fault { let (out, err) = failures_of streams.old.outputs in result ≡ Err Write
        → (failures_of streams.new.outputs ≡ (out + 1, err)) ⊎ (failures_of streams.new.outputs ≡ (out, err + 1)) }
    ensures otherwise { result ≢ Err Write → failures_of streams.new.outputs ≡ failures_of streams.old.outputs }
{
    check_one(alloc, settings, tool, name, streams)
}

/// So does `Checker::step`, unless it repeats an earlier stop.
pub fn step_write_fault<A: Allocator, I: Input, S: Source, O: Sink, E: Sink>(
    checker: &mut Checker<I>,
    line: &mut Vec<u8, A>,
    streams: &mut Streams<S, O, E>,
) -> Result<Progress, Stop>
    requires { checker.old.outcome ≡ None }
    ensures fault { let (out, err) = failures_of streams.old.outputs in result ≡ Err Write
        → (failures_of streams.new.outputs ≡ (out + 1, err)) ⊎ (failures_of streams.new.outputs ≡ (out, err + 1)) }
    ensures otherwise { result ≢ Err Write → failures_of streams.new.outputs ≡ failures_of streams.old.outputs }
{
    checker.step(line, streams)
}

/// A reader that has returned no line, for whatever reason, returns the same again.
pub fn reader_repeats<I: Input, A: Allocator>(
    reader: &mut LineReader<I>,
    line: &mut Vec<u8, A>,
) -> (Result<Next, LineStop>, Result<Next, LineStop>)
    ensures { result.0 ≢ Ok Next.Line → result.1 ≡ result.0 }
{
    let first = reader.next_line(line);
    (first, reader.next_line(line))
}

/// A check that ended or stopped returns the same again. The later step neither opens nor writes anything.
pub fn check_repeats<A: Allocator, I: Input, S: Source, O: Sink, E: Sink>(
    checker: &mut Checker<I>,
    line: &mut Vec<u8, A>,
    before: &mut Streams<S, O, E>,
    streams: &mut Streams<S, O, E>,
) -> (Result<Progress, Stop>, Result<Progress, Stop>)
    ensures same { result.0 ≢ Ok Going → result.1 ≡ result.0 }
    ensures unchanged { result.0 ≢ Ok Going → streams.new ≡ streams.old }
{
    let first = checker.step(line, before);
    (first, checker.step(line, streams))
}

/// Verdicts that stopped return the same stop again, and after the last line again none.
pub fn verdicts_repeat<A: Allocator, I: Input, S: Source>(
    verdicts: &mut Verdicts<I>,
    line: &mut Vec<u8, A>,
    before: &mut Inputs<S>,
    inputs: &mut Inputs<S>,
) -> (
    Result<Option<LineVerdict>, LineStop>,
    Result<Option<LineVerdict>, LineStop>,
)
    ensures stop { (stop : LineStop) → result.0 ≡ Err stop → result.1 ≡ result.0 }
    ensures end { result.0 ≡ Ok None → result.1 ≡ result.0 }
    ensures unchanged { ((stop : LineStop) × (result.0 ≡ Err stop)) ⊎ (result.0 ≡ Ok None)
        → inputs.new ≡ inputs.old }
{
    let first = verdicts.next(line, before);
    (first, verdicts.next(line, inputs))
}
