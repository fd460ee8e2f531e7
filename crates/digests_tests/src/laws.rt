//! What the laws say of one tool and of one or two names. Each of these functions is there for its contract.
ghost use Rattle.digest_kinds.specs.Bytes.{LIMIT};
ghost use Rattle.digests.specs.Laws.{HasFiles, IsListable};
ghost use Rattle.digests.specs.ToolRun.{meaning, status_of};
ghost use Rattle.std.specs.Prelude.{◌≡◌, ◌<◌, ◌+◌, ◌∷◌, ◌++◌, [], Ok, IfOk, Some, codes, length};
ghost use Rattle.sum_sources.specs.declared.fault.Ending.TheVariants.{Whole};
ghost use Rattle.sum_sources.specs.inputs.InputLog.{empty_content};
ghost use Rattle.sum_sources.specs.sources.Source.{AnswerValue as AnswerValue, Answers, TellsAll};
ghost use Rattle.sum_engine.specs.Behavior.{World, answer_to, out_text, err_text};
ghost use Rattle.sum_engine.specs.{Streams.failures_of, check.Report.out_by};
ghost use Rattle.sum_engine.specs.declared.check.judge.Verdict.TheVariants.{Right};
ghost use Rattle.sum_settings.specs.declared.settings.Report.TheVariants.{All as AllReports};
ghost use Rattle.sum_words.specs.Arguments.{FitsArguments};
ghost use Rattle.sum_words.specs.declared.tool.Tool.TheVariants.{Md5sum, Sha256sum, Anysum};
ghost use Rattle.digest_kinds.specs.Bytes.{ByteString};

use digests::laws::{joined_is_good, told_performs, told_program_performs, written_is_good};
use digests::{Finished, SystemStreams, command, program, run};
use std::alloc::{Allocator, Global};
use std::io::{Read, Write};
use std::os::fd::AsFd;
use std::rt;
use sum_engine::laws::told_agree;
use sum_engine::{Outputs, Stop, Streams};
use sum_lines::{FromWrite, Sink, ToldSink};
use sum_sources::laws::with_stdin_tells;
use sum_sources::{Answer, Ending, NoRoom, Source, Stdin, Told, ToldSource, WithStdin};
use sum_words::{Arguments, SystemArguments, ToldArguments, Tool, Words};

/// `md5sum e` over files in memory, of which `e` is empty: if it doesn't stop, the status is 0, and standard output got
/// the line of `e` and nothing else.
pub fn run_on_e<A: Allocator + Copy, S: Source, O: Sink, E: Sink>(
    alloc: A,
    words: &Words<A>,
    streams: &mut Streams<S, O, E>,
) -> Result<u8, Stop>
    requires words { words.now ≡ codes "e" ∷ [] }
    requires start { streams.old.inputs.openings ≡ [] }
    ensures { (answer : Answers) → TellsAll S.tells streams.old.inputs.told answer →
        answer (codes "e") 0 ≡ Ok empty_content → IfOk result (λ status. (status ≡ 0)
        × (streams.new.outputs.out.written ≡ streams.old.outputs.out.written
        ++ codes "d41d8cd98f00b204e9800998ecf8427e  e\n")) }
{
    let outcome = run(alloc, Tool::Md5sum, words, streams);
    told_performs(streams);
    outcome
}

/// `md5sum` without words, if standard input is empty: if the status is 0, standard output got its line.
pub fn command_on_nothing<A: Allocator + Copy, G: Arguments, S: Source, O: Sink, E: Sink>(
    alloc: A,
    arguments: &mut G,
    streams: &mut Streams<S, O, E>,
) -> u8
    requires new { (G.state arguments.old).given ≡ [] }
    requires told { (G.state arguments.old).told ≡ Some (codes "md5sum" ∷ []) }
    requires start { streams.old.inputs.openings ≡ [] }
    ensures { (answer : Answers) → TellsAll S.tells streams.old.inputs.told answer →
        answer (codes "-") 0 ≡ Ok empty_content → result ≡ 0 →
        streams.new.outputs.out.written ≡ streams.old.outputs.out.written
        ++ codes "d41d8cd98f00b204e9800998ecf8427e  -\n" }
{
    let status = command(alloc, arguments, streams);
    told_program_performs(arguments, streams);
    status
}

/// `md5sum e`, if `e` is empty: if the status is 0, standard output got its line.
pub fn command_on_e<A: Allocator + Copy, G: Arguments, S: Source, O: Sink, E: Sink>(
    alloc: A,
    arguments: &mut G,
    streams: &mut Streams<S, O, E>,
) -> u8
    requires new { (G.state arguments.old).given ≡ [] }
    requires told { (G.state arguments.old).told ≡ Some (codes "md5sum" ∷ codes "e" ∷ []) }
    requires start { streams.old.inputs.openings ≡ [] }
    ensures { (answer : Answers) → TellsAll S.tells streams.old.inputs.told answer →
        answer (codes "e") 0 ≡ Ok empty_content → result ≡ 0 →
        streams.new.outputs.out.written ≡ streams.old.outputs.out.written
        ++ codes "d41d8cd98f00b204e9800998ecf8427e  e\n" }
{
    let status = command(alloc, arguments, streams);
    told_program_performs(arguments, streams);
    told_agree(&streams.inputs);
    status
}

/// `md5sum - -` over what the system gives: if the status is 0, the last line is that of an empty file.
pub fn dash_twice<A, R, F, I, O, E>(
    alloc: A,
    env: R,
    files: F,
    stdin: I,
    out: O,
    err: E,
) -> Finished<SystemArguments<R>, SystemStreams<F, I, O, E>>
where
    A: Allocator + Copy,
    R: rt::Env,
    F: rt::Files + Drop,
    I: Read + AsFd + Drop,
    O: Write,
    E: Write,
    ensures line { FitsArguments (⟦<SystemArguments<R> as Arguments>⟧.state result.arguments)
        (codes "md5sum" ∷ codes "-" ∷ codes "-" ∷ []) → result.status ≡ 0 → (text : ByteString)
        × (result.streams.outputs.out.written ≡ text
        ++ codes "d41d8cd98f00b204e9800998ecf8427e  -\n") }
    ensures no_failures { result.status ≡ 0 → failures_of result.streams.outputs ≡ (0, 0) }
{
    program(alloc, env, files, stdin, out, err)
}

/// The same, as both sinks below the outputs have it: what they got is what the program says that its outputs got.
pub fn dash_twice_in_sinks<A, R, F, I, O, E>(
    alloc: A,
    env: R,
    files: F,
    stdin: I,
    out: O,
    err: E,
) -> Finished<SystemArguments<R>, (FromWrite<O>, FromWrite<E>)>
where
    A: Allocator + Copy,
    R: rt::Env,
    F: rt::Files + Drop,
    I: Read + AsFd + Drop,
    O: Write,
    E: Write,
    ensures line { FitsArguments (⟦<SystemArguments<R> as Arguments>⟧.state result.arguments)
        (codes "md5sum" ∷ codes "-" ∷ codes "-" ∷ []) → result.status ≡ 0 → (text : ByteString)
        × ((⟦<FromWrite<O> as Sink>⟧.state result.streams.0).output.written ≡ text
        ++ codes "d41d8cd98f00b204e9800998ecf8427e  -\n") }
    ensures no_failures { result.status ≡ 0 →
        ((⟦<FromWrite<O> as Sink>⟧.state result.streams.0).output.failures ≡ 0)
        × ((⟦<FromWrite<E> as Sink>⟧.state result.streams.1).output.failures ≡ 0) }
{
    let Finished {
        status,
        arguments,
        streams,
    } = dash_twice(alloc, env, files, stdin, out, err);
    let Outputs { out, err } = streams.outputs;
    Finished {
        status,
        arguments,
        streams: (out.into_inner(), err.into_inner()),
    }
}

/// The same as `command_on_e` with all in memory: what standard output holds.
pub fn e_in_memory(alloc: Global) -> Result<(u8, ToldSink<64>), NoRoom>
    ensures { IfOk result (λ r. r.0 ≡ 0 →
        r.1.state.output.written ≡ codes "d41d8cd98f00b204e9800998ecf8427e  e\n") }
{
    let mut source = ToldSource::new(alloc, 1);
    source.add(b"e", Answer::Content(b"", Ending::Whole))?;
    let stdin = Stdin::new(Told::new(b"", Ending::Whole, 1));
    let inputs = WithStdin::new(stdin, source);
    let mut streams: Streams<WithStdin<Told, ToldSource<Global>>, ToldSink<64>, ToldSink<64>> =
        Streams::new(inputs, ToldSink::new(64), ToldSink::new(64));
    let words: [&[u8]; 2] = [b"md5sum", b"e"];
    let mut arguments = ToldArguments::new(&words);
    with_stdin_tells();
    let status = command_on_e(alloc, &mut arguments, &mut streams);
    Ok((status, streams.outputs.out.into_inner()))
}

/// `md5sum a` wrote `SUMS`, and `a` is the same later: then a check reports `a: OK` and nothing else, with status 0.
pub fn one_name_is_good()
    ensures { (files later : ByteString → AnswerValue) (w v : World) → HasFiles w files →
        HasFiles v later → IsListable files (codes "a") → later (codes "a") ≡ files (codes "a") →
        let sums = out_text (meaning Md5sum (codes "a" ∷ []) w) in
        length sums < LIMIT →
        answer_to v (codes "SUMS") ≡ Ok (record { bytes = sums; ending = Whole }) →
        let run = meaning Md5sum (codes "--check" ∷ codes "--" ∷ codes "SUMS" ∷ []) v in
        (status_of run.good ≡ 0) × (out_text run ≡ out_by AllReports Right (codes "a")) × (err_text run ≡ []) }
{
    written_is_good();
}

/// `md5sum --tag a` and `sha256sum --tag b` wrote `SUMS`, one after the other: then `anysum` reports both in its check.
pub fn two_tools_are_good()
    ensures { (files later : ByteString → AnswerValue) (w v : World) → HasFiles w files →
        HasFiles v later → IsListable files (codes "a") → later (codes "a") ≡ files (codes "a") →
        IsListable files (codes "b") → later (codes "b") ≡ files (codes "b") →
        let sums = out_text (meaning Md5sum (codes "--tag" ∷ codes "a" ∷ []) w)
        ++ out_text (meaning Sha256sum (codes "--tag" ∷ codes "b" ∷ []) w) in
        length sums < LIMIT →
        answer_to v (codes "SUMS") ≡ Ok (record { bytes = sums; ending = Whole }) →
        let run = meaning Anysum (codes "--check" ∷ codes "--" ∷ codes "SUMS" ∷ []) v in
        (status_of run.good ≡ 0)
        × (out_text run ≡ out_by AllReports Right (codes "a") ++ out_by AllReports Right (codes "b"))
        × (err_text run ≡ []) }
{
    joined_is_good();
}
