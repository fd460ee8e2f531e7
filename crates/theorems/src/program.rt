//! The program: from the arguments to the exit status.
ghost use Rattle.digest_kinds.specs.{Bytes.ByteString};
ghost use Rattle.digests.specs.Laws.{CommandPerformsIn};
ghost use Rattle.digests.specs.ToolRun.{meaning, status_of};
ghost use Rattle.digests.specs.Program.{CallPerforms, CallRefuses, CommandPerforms, fresh_streams, not_read_line};
ghost use Rattle.digests.specs.Program.{unknown_tool_line};
ghost use Rattle.std.specs.Prelude.{◌≡◌, ◌≢◌, ◌↔◌, ◌⊎◌, ◌++◌, [], All, Any, List, ℕ, None, Some, Ok, Err, suc};
ghost use Rattle.std.specs.Prelude.{◌<◌, ◌+◌, ◌==◌, ◌∷◌, codes, false, length, true};
ghost use Rattle.std.specs.{List.after_last, Str.byte};
ghost use Rattle.std.specs.declared.env.FillError.TheVariants.{NotPresent};
ghost use Rattle.sum_engine.specs.Behavior.{Step, World, single_step};
ghost use Rattle.sum_engine.specs.{Execution.Agrees, Execution.Performs, Execution.ReadsFile};
ghost use Rattle.sum_engine.specs.{Execution.opened_names, Execution.world_at, Streams.failures_of};
ghost use Rattle.sum_settings.specs.declared.settings.{Settings.Settings as SettingsOf};
ghost use Rattle.sum_sources.specs.inputs.InputLog.{empty_content};
ghost use Rattle.sum_sources.specs.sources.Source.{Answers, Opening, TellsAll};
ghost use Rattle.sum_words.specs.{Arguments.FitsArguments, CommandLine.NeedsMemory, CommandLine.command_line};
ghost use Rattle.sum_words.specs.System.{system_arguments_state};
ghost use Rattle.sum_words.specs.{Tool.name_of, declared.tool.Tool.Tool as ToolOf};
ghost use Rattle.sum_words.specs.declared.parsing.request.Request.TheVariants.{Generate, Help, Version};
ghost use Rattle.sum_words.specs.messages.{FaultLines.fault_lines, Help.help, Help.version};
ghost use Rattle.sum_words.specs.parsing.{Request.request, WordFault.WordFaultValue};
ghost use Rattle.theorems.specs.{CommandWrites.CommandWrites, CommandWrites.OnlyWrites};
ghost use Rattle.theorems.specs.StopsBeforeStep.{IsCauseOfMemory};

use digests::laws::told_program_performs;
use digests::{Finished, SystemStreams, command, program};
use std::alloc::Allocator;
use std::io::{Read, Write};
use std::os::fd::AsFd;
use std::rt;
use sum_engine::Streams;
use sum_engine::laws::told_agree;
use sum_lines::Sink;
use sum_sources::Source;
use sum_words::laws::some_list_agrees;
use sum_words::{Arguments, SystemArguments, Tool};

/// Take any list of arguments that agrees with what the calls gave. If it names a tool, `command` performs what the
/// words mean, in each world that agrees with what was read. If it needs memory, the words may instead not be read.
pub fn tool_performed<A: Allocator + Copy, G: Arguments, S: Source, O: Sink, E: Sink>(
    alloc: A,
    arguments: &mut G,
    streams: &mut Streams<S, O, E>,
) -> u8
    requires { (G.state arguments.old).given ≡ [] }
    ensures { (all : List ByteString) → FitsArguments (G.state arguments.new) all → (tool : ToolOf)
        (words : List ByteString) → command_line all ≡ Some (tool, words)
        → CallPerforms (Some tool) (Performs (meaning tool words) status_of) streams.old streams.new result
        ⊎ (NeedsMemory all × CallRefuses not_read_line streams.old streams.new result) }
{
    command(alloc, arguments, streams)
}

/// If the list names no tool, `command` writes that the tool is unknown; or, if an argument needs memory, that the
/// words weren't read.
pub fn no_tool_performed<A: Allocator + Copy, G: Arguments, S: Source, O: Sink, E: Sink>(
    alloc: A,
    arguments: &mut G,
    streams: &mut Streams<S, O, E>,
) -> u8
    requires { (G.state arguments.old).given ≡ [] }
    ensures { (all : List ByteString) → FitsArguments (G.state arguments.new) all
        → command_line all ≡ None → CallRefuses unknown_tool_line streams.old streams.new result
        ⊎ (Any (λ argument. 4096 < length argument) all
        × CallRefuses not_read_line streams.old streams.new result) }
{
    command(alloc, arguments, streams)
}

/// If the arguments are in memory, and all answers of the source are told, `command` does what the list means by them.
/// If the list needs memory, its words may instead not be read.
pub fn told_command_performed<A: Allocator + Copy, G: Arguments, S: Source, O: Sink, E: Sink>(
    alloc: A,
    arguments: &mut G,
    streams: &mut Streams<S, O, E>,
) -> u8
    requires { (G.state arguments.old).given ≡ [] }
    ensures { (all : List ByteString) (answer : Answers) → (G.state arguments.old).told ≡ Some all
        → TellsAll S.tells streams.old.inputs.told answer
        → CommandPerformsIn (record { answer = answer; opened = opened_names streams.old.inputs })
        (command_line all) streams.old streams.new result
        ⊎ (NeedsMemory all × CallRefuses not_read_line streams.old streams.new result) }
{
    let status = command(alloc, arguments, streams);
    told_program_performs(arguments, streams);
    status
}

/// `command` writes exactly the bytes, and returns exactly the status, that the words mean. Or it stops with status 1,
/// a prefix of each text, and on standard error a prefix of the line for the stop: if a write failed; or if memory ran
/// out, by the cause that `run` has. Or the words weren't read, which is possible only if they need memory.
pub fn command_written<A: Allocator + Copy, G: Arguments, S: Source, O: Sink, E: Sink>(
    alloc: A,
    arguments: &mut G,
    streams: &mut Streams<S, O, E>,
) -> u8
    requires { (G.state arguments.old).given ≡ [] }
    ensures { (all : List ByteString) → FitsArguments (G.state arguments.new) all → (tool : ToolOf)
        (words : List ByteString) → command_line all ≡ Some (tool, words) → (w : World)
        → Agrees w streams.new.inputs → let run = meaning tool words (world_at w streams.old.inputs) in
        CommandWrites (Some tool) run ((done : List Step) × (next : Step) × (later : List Step)
        × (run.steps ≡ done ++ next ∷ later) × IsCauseOfMemory next streams.old streams.new)
        streams.old streams.new result
        ⊎ (NeedsMemory all × OnlyWrites not_read_line streams.old streams.new result) }
{
    command(alloc, arguments, streams)
}

/// In hashing names, `command` stops for want of memory only if the source was refused it, once.
pub fn command_refused<A: Allocator + Copy, G: Arguments, S: Source, O: Sink, E: Sink>(
    alloc: A,
    arguments: &mut G,
    streams: &mut Streams<S, O, E>,
) -> u8
    requires { (G.state arguments.old).given ≡ [] }
    ensures { (all : List ByteString) → FitsArguments (G.state arguments.new) all → (tool : ToolOf)
        (words : List ByteString) → command_line all ≡ Some (tool, words) → (settings : SettingsOf)
        (names : List ByteString) → request tool words ≡ Ok (Generate settings names) → (w : World)
        → Agrees w streams.new.inputs
        → CommandWrites (Some tool) (meaning tool words (world_at w streams.old.inputs))
        (streams.new.inputs.refusals ≡ streams.old.inputs.refusals + 1) streams.old streams.new result
        ⊎ (NeedsMemory all × OnlyWrites not_read_line streams.old streams.new result) }
{
    command(alloc, arguments, streams)
}

/// With help, the version or a fault of the words, `command` writes exactly that text, unless a write fails, or the
/// words aren't read: memory never runs out.
pub fn texts_without_memory<A: Allocator + Copy, G: Arguments, S: Source, O: Sink, E: Sink>(
    alloc: A,
    arguments: &mut G,
    streams: &mut Streams<S, O, E>,
) -> u8
    requires { (G.state arguments.old).given ≡ [] }
    ensures help { (all : List ByteString) → FitsArguments (G.state arguments.new) all → (tool : ToolOf)
        (words : List ByteString) → command_line all ≡ Some (tool, words) → request tool words ≡ Ok Help
        → CommandWrites (Some tool) (single_step [] [] (help tool) true) ⊥ streams.old streams.new result
        ⊎ (NeedsMemory all × OnlyWrites not_read_line streams.old streams.new result) }
    ensures version { (all : List ByteString) → FitsArguments (G.state arguments.new) all → (tool : ToolOf)
        (words : List ByteString) → command_line all ≡ Some (tool, words) → request tool words ≡ Ok Version
        → CommandWrites (Some tool) (single_step [] [] (version tool) true) ⊥ streams.old streams.new result
        ⊎ (NeedsMemory all × OnlyWrites not_read_line streams.old streams.new result) }
    ensures fault { (all : List ByteString) → FitsArguments (G.state arguments.new) all → (tool : ToolOf)
        (words : List ByteString) → command_line all ≡ Some (tool, words) → (fault : WordFaultValue)
        → request tool words ≡ Err fault
        → CommandWrites (Some tool) (single_step [] (fault_lines tool fault) [] false) ⊥
        streams.old streams.new result
        ⊎ (NeedsMemory all × OnlyWrites not_read_line streams.old streams.new result) }
{
    let status = command(alloc, arguments, streams);
    told_agree(&streams.inputs);
    status
}

/// The status is 0 only if no write and no flush failed, and each file that was opened was read to its end. Whatever
/// the status, none was read past its end or its fault, and each was closed.
pub fn command_ends_well<A: Allocator + Copy, G: Arguments, S: Source, O: Sink, E: Sink>(
    alloc: A,
    arguments: &mut G,
    streams: &mut Streams<S, O, E>,
) -> u8
    requires { (G.state arguments.old).given ≡ [] }
    ensures failures { result ≡ 0 → failures_of streams.new.outputs ≡ failures_of streams.old.outputs }
    ensures read { (more : List Opening)
        × (streams.new.inputs.openings ≡ streams.old.inputs.openings ++ more)
        × All (ReadsFile (result ≡ 0)) more }
{
    command(alloc, arguments, streams)
}

/// After each call for arguments some list agrees with what the calls gave.
pub fn some_list<G: Arguments>(arguments: &G)
    ensures { (all : List ByteString) × FitsArguments (G.state arguments.now) all }
{
    some_list_agrees(arguments);
}

/// Once the end of the arguments was found, only one list agrees: that of the arguments that were given.
pub fn only_list<G: Arguments>(arguments: &G)
    ensures { (all : List ByteString) (size : ℕ) → FitsArguments (G.state arguments.now) all
        → (G.state arguments.now).fault ≡ Some (NotPresent, size)
        → all ≡ (G.state arguments.now).given }
{}

/// The tool is the last part of the path by which the program was called, if that is a tool's name, and the words are
/// the other arguments. Otherwise the first word names the tool, and the words come after it. If that isn't a tool's
/// name either, there is none.
pub fn tool_found()
    ensures called { (path : ByteString) (words : List ByteString) (tool : ToolOf)
        → after_last (λ b. b == byte "/") path ≡ name_of tool
        → command_line (path ∷ words) ≡ Some (tool, words) }
    ensures named { (path : ByteString) (words : List ByteString) (tool : ToolOf)
        → ((other : ToolOf) → name_of other ≢ after_last (λ b. b == byte "/") path)
        → command_line (path ∷ name_of tool ∷ words) ≡ Some (tool, words) }
    ensures unknown { (path word : ByteString) (words : List ByteString)
        → ((other : ToolOf) → name_of other ≢ after_last (λ b. b == byte "/") path)
        → ((other : ToolOf) → name_of other ≢ word) → command_line (path ∷ word ∷ words) ≡ None }
    ensures no_word { (path : ByteString)
        → ((other : ToolOf) → name_of other ≢ after_last (λ b. b == byte "/") path)
        → command_line (path ∷ []) ≡ None }
    ensures no_argument { command_line [] ≡ None }
{}

/// `from_word` finds a tool by its name, and by no other.
pub fn tool_of_word(word: &str) -> Option<Tool>
    ensures { (tool : ToolOf) → (result ≡ Some tool) ↔ (name_of tool ≡ word.now) }
{
    Tool::from_word(word)
}

/// `program` performs the same, over streams of which nothing was opened, read or written before.
pub fn program_performed<A, R, F, I, O, E>(
    alloc: A,
    env: R,
    files: F,
    stdin: I,
    out: O,
    err: E,
) -> Finished<SystemArguments<R>, SystemStreams<F, I, O, E>>
where
    A: Allocator + Copy,
    R: rt::Env,
    F: rt::Files + Drop,
    I: Read + AsFd + Drop,
    O: Write,
    E: Write,
    ensures { let start = fresh_streams result.streams.inputs.told (O.contents out) (E.contents err) in
        (all : List ByteString) → FitsArguments (system_arguments_state result.arguments) all
        → CommandPerforms (command_line all) start result.streams result.status
        ⊎ (NeedsMemory all × CallRefuses not_read_line start result.streams result.status) }
{
    program(alloc, env, files, stdin, out, err)
}

/// After a run of the program, each later `-` is empty in some world that agrees with all that was read.
pub fn later_dash_empty<A, R, F, I, O, E>(
    alloc: A,
    env: R,
    files: F,
    stdin: I,
    out: O,
    err: E,
) -> Finished<SystemArguments<R>, SystemStreams<F, I, O, E>>
where
    A: Allocator + Copy,
    R: rt::Env,
    F: rt::Files + Drop,
    I: Read + AsFd + Drop,
    O: Write,
    E: Write,
    ensures { (w : World) × Agrees w result.streams.inputs
        × ((k : ℕ) → w.answer (codes "-") (suc k) ≡ Ok empty_content) }
{
    program(alloc, env, files, stdin, out, err)
}

/// The program's status is 0 only if no write failed, and each file that was opened was read to its end.
pub fn program_ends_well<A, R, F, I, O, E>(
    alloc: A,
    env: R,
    files: F,
    stdin: I,
    out: O,
    err: E,
) -> Finished<SystemArguments<R>, SystemStreams<F, I, O, E>>
where
    A: Allocator + Copy,
    R: rt::Env,
    F: rt::Files + Drop,
    I: Read + AsFd + Drop,
    O: Write,
    E: Write,
    ensures failures { result.status ≡ 0 → failures_of result.streams.outputs ≡ (0, 0) }
    ensures read { All (ReadsFile (result.status ≡ 0)) result.streams.inputs.openings }
{
    program(alloc, env, files, stdin, out, err)
}
