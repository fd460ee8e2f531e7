//! A run of a tool: what it writes, opens, offers and reads in each world that agrees with what was read.
ghost use Rattle.digest_kinds.specs.Bytes.{LIMIT};
ghost use Rattle.digest_kinds.specs.{Bytes.ByteString};
ghost use Rattle.digests.specs.Laws.{GenerationRun, HasFiles, IsCheckable};
ghost use Rattle.digests.specs.Laws.{check_words, generation_output};
ghost use Rattle.digests.specs.ToolRun.{meaning, status_of};
ghost use Rattle.std.specs.Option.{option_copied};
ghost use Rattle.std.specs.Prelude.{◌≡◌, ◌<◌, ◌∷◌, ◌++◌, [], All, List, Ok, Err, OnErr, OnOk, filter_map, flat_map};
ghost use Rattle.std.specs.Prelude.{◌↔◌, IfSome, IsNone, length, slice_get};
ghost use Rattle.sum_engine.specs.Behavior.{Event, Step, World, answer_to, names_in, err_text, out_text, trace};
ghost use Rattle.sum_engine.specs.Execution.{Agrees, Happened, ReadsFile, err_event, opened_names, out_event, world_at};
ghost use Rattle.sum_engine.specs.check.Report.{out_by};
ghost use Rattle.sum_engine.specs.declared.check.judge.Verdict.TheVariants.{Right};
ghost use Rattle.sum_lines.specs.sinks.Output.{OffersEach};
ghost use Rattle.sum_settings.specs.declared.settings.CheckSettings.{CheckSettings as CheckSettingsOf};
ghost use Rattle.sum_settings.specs.declared.stop.Stop.TheVariants.{Memory, Write};
ghost use Rattle.sum_sources.specs.declared.fault.Ending.TheVariants.{Whole};
ghost use Rattle.sum_sources.specs.{sources.Source.AnswerValue as AnswerOf, sources.Source.Answers};
ghost use Rattle.sum_sources.specs.sources.Source.{Opening, TellsAll};
ghost use Rattle.sum_words.specs.{Tool.algos_of, declared.tool.Tool.Tool as ToolOf, parsing.Request.request};
ghost use Rattle.sum_words.specs.parsing.{WordFault.result_value};
ghost use Rattle.theorems.specs.{StopsBeforeStep.StopsBeforeStep, WritesTexts.WritesTexts};

use digests::laws::{joined_is_good, told_performs, written_is_good};
use digests::run;
use std::alloc::Allocator;
use sum_engine::{Stop, Streams};
use sum_lines::Sink;
use sum_sources::Source;
use sum_words::{Operands, Request, Tool, WordFault, Words, read_words};

/// `run` writes exactly the bytes, and returns exactly the status, that the words mean: in each world that agrees with
/// what was read. Or it stops, and each output got a prefix of its text.
pub fn run_written<A: Allocator + Copy, S: Source, O: Sink, E: Sink>(
    alloc: A,
    tool: Tool,
    words: &Words<A>,
    streams: &mut Streams<S, O, E>,
) -> Result<u8, Stop>
    ensures { (w : World) → Agrees w streams.new.inputs → let all =
        meaning tool words.now (world_at w streams.old.inputs) in
        WritesTexts all (status_of all.good) streams.old streams.new result }
{
    run(alloc, tool, words, streams)
}

/// If all answers of its source are told, `run` writes and returns what the words mean by these answers; or it stops,
/// and each output got a prefix of its text.
pub fn told_run_written<A: Allocator + Copy, S: Source, O: Sink, E: Sink>(
    alloc: A,
    tool: Tool,
    words: &Words<A>,
    streams: &mut Streams<S, O, E>,
) -> Result<u8, Stop>
    ensures { (answer : Answers) → TellsAll S.tells streams.old.inputs.told answer → let all =
        meaning tool words.now (record { answer = answer; opened = opened_names streams.old.inputs }) in
        WritesTexts all (status_of all.good) streams.old streams.new result }
{
    let outcome = run(alloc, tool, words, streams);
    told_performs(streams);
    outcome
}

/// `run` opens each name as often as it is mentioned, in the order of the mentions; after a stop, the first of these.
pub fn names_opened<A: Allocator + Copy, S: Source, O: Sink, E: Sink>(
    alloc: A,
    tool: Tool,
    words: &Words<A>,
    streams: &mut Streams<S, O, E>,
) -> Result<u8, Stop>
    ensures done { (w : World) → Agrees w streams.new.inputs → OnOk result
        (opened_names streams.new.inputs ≡ opened_names streams.old.inputs
        ++ names_in (meaning tool words.now (world_at w streams.old.inputs))) }
    ensures stopped { (w : World) → Agrees w streams.new.inputs → OnErr result
        ((names later : List ByteString)
        × (names_in (meaning tool words.now (world_at w streams.old.inputs)) ≡ names ++ later)
        × (opened_names streams.new.inputs ≡ opened_names streams.old.inputs ++ names)) }
{
    run(alloc, tool, words, streams)
}

/// After a failed write, a prefix of the events happened, a single one for both outputs and the names.
pub fn one_prefix<A: Allocator + Copy, S: Source, O: Sink, E: Sink>(
    alloc: A,
    tool: Tool,
    words: &Words<A>,
    streams: &mut Streams<S, O, E>,
) -> Result<u8, Stop>
    ensures { result ≡ Err Write → (w : World) → Agrees w streams.new.inputs
        → (front rest : List Event)
        × (trace (meaning tool words.now (world_at w streams.old.inputs)).steps ≡ front ++ rest)
        × Happened streams.old streams.new front }
{
    run(alloc, tool, words, streams)
}

/// Out of memory, exactly the first n steps happened, and n is less than the number of steps. Either the source was
/// refused memory, once, and the next step opens a name; or it wasn't, and bytes of the manifest were still to come.
pub fn first_steps<A: Allocator + Copy, S: Source, O: Sink, E: Sink>(
    alloc: A,
    tool: Tool,
    words: &Words<A>,
    streams: &mut Streams<S, O, E>,
) -> Result<u8, Stop>
    ensures { result ≡ Err Memory → (w : World) → Agrees w streams.new.inputs → StopsBeforeStep
        (meaning tool words.now (world_at w streams.old.inputs)).steps streams.old streams.new }
{
    run(alloc, tool, words, streams)
}

/// Each output is offered its texts piece by piece, what a write left of a piece again, and nothing else. After a
/// failed write, a single prefix of the events was offered so.
pub fn pieces_offered<A: Allocator + Copy, S: Source, O: Sink, E: Sink>(
    alloc: A,
    tool: Tool,
    words: &Words<A>,
    streams: &mut Streams<S, O, E>,
) -> Result<u8, Stop>
    ensures done { (w : World) → Agrees w streams.new.inputs → let old = streams.old.outputs in
        let events = trace (meaning tool words.now (world_at w streams.old.inputs)).steps in OnOk result
        (OffersEach old.out.offered streams.new.outputs.out.offered (filter_map out_event events)
        × OffersEach old.err.offered streams.new.outputs.err.offered (filter_map err_event events)) }
    ensures failed { result ≡ Err Write → (w : World) → Agrees w streams.new.inputs
        → (front rest : List Event) × (let old = streams.old.outputs in
        (trace (meaning tool words.now (world_at w streams.old.inputs)).steps ≡ front ++ rest)
        × OffersEach old.out.offered streams.new.outputs.out.offered (filter_map out_event front)
        × OffersEach old.err.offered streams.new.outputs.err.offered (filter_map err_event front)) }
{
    run(alloc, tool, words, streams)
}

/// `run` returns 0 only if it read each file that it opened to its end. Whatever it returns, it read none past its end
/// or its fault, and closed each.
pub fn run_read<A: Allocator + Copy, S: Source, O: Sink, E: Sink>(
    alloc: A,
    tool: Tool,
    words: &Words<A>,
    streams: &mut Streams<S, O, E>,
) -> Result<u8, Stop>
    ensures { (more : List Opening)
        × (streams.new.inputs.openings ≡ streams.old.inputs.openings ++ more)
        × All (ReadsFile (result ≡ Ok 0)) more }
{
    run(alloc, tool, words, streams)
}

/// A tool accepts what it wrote: a later check of it ends with status 0, and writes nothing but an `OK` for each name,
/// if the setting shows it. `IsCheckable` and `HasFiles` are the premises.
pub fn written_accepted()
    ensures { (written : GenerationRun) (tool : ToolOf) (settings : CheckSettingsOf)
        (manifest : ByteString) (files later : ByteString → AnswerOf) (world later_world : World)
        → HasFiles world files → HasFiles later_world later → settings.algo ≡ algos_of tool
        → IsCheckable settings.algo files later written → 0 < length written.names
        → let sums = generation_output world written in length sums < LIMIT
        → answer_to later_world manifest ≡ Ok (record { bytes = sums; ending = Whole })
        → let check = meaning tool (check_words settings manifest) later_world in
        (status_of check.good ≡ 0)
        × (out_text check ≡ flat_map (out_by settings.report Right) written.names)
        × (err_text check ≡ []) }
{
    written_is_good();
}

/// So it does if several such manifests were joined, those of one tool, or tagged ones of any tools for `anysum`.
pub fn joined_accepted()
    ensures { (written : List GenerationRun) (tool : ToolOf) (settings : CheckSettingsOf)
        (manifest : ByteString) (files later : ByteString → AnswerOf) (world later_world : World)
        → HasFiles world files → HasFiles later_world later → settings.algo ≡ algos_of tool
        → All (IsCheckable settings.algo files later) written
        → let names = flat_map (λ one. one.names) written in 0 < length names
        → let sums = flat_map (generation_output world) written in length sums < LIMIT
        → answer_to later_world manifest ≡ Ok (record { bytes = sums; ending = Whole })
        → let check = meaning tool (check_words settings manifest) later_world in
        (status_of check.good ≡ 0)
        × (out_text check ≡ flat_map (out_by settings.report Right) names)
        × (err_text check ≡ []) }
{
    joined_is_good();
}

/// `Words::new` is an empty list.
pub fn no_words<A: Allocator + Copy>(alloc: A) -> Words<A>
    ensures { result ≡ [] }
{
    Words::new(alloc)
}

/// `Words::get` returns the word at a place, if there is one.
pub fn word_at<A: Allocator>(words: &Words<A>, i: usize) -> Option<&[u8]>
    ensures { option_copied result ≡ slice_get words.now i }
{
    words.get(i)
}

/// `read_words` returns what the words ask for, or their first fault.
pub fn words_read<'a, A: Allocator>(
    tool: Tool,
    words: &'a Words<A>,
) -> Result<Request<'a>, WordFault<'a>>
    ensures { result_value result ≡ request tool words.now }
{
    read_words(tool, words)
}

/// `Operands::next` takes the first of the operands that are left, and returns `None` if and only if none is.
pub fn operand_taken<'a>(operands: &mut Operands<'a>) -> Option<&'a [u8]>
    ensures some { IfSome result (λ name. operands.old ≡ name.now ∷ operands.new) }
    ensures none { IsNone result ↔ (operands.old ≡ []) }
{
    operands.next()
}
