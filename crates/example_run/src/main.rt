//! Runs `md5sum --tag` over two files in memory.
#![tactic(auto)]

ghost use Rattle.digests.specs.ToolRun.{meaning, status_of};
ghost use Rattle.sum_engine.specs.Execution.{PerformsSteps, opened_names};
ghost use Rattle.sum_sources.specs.sources.Source.{Answers, TellsAll};

use digests::laws::told_performs;
use digests::run;
use std::alloc::Allocator;
use std::process::ExitCode;
use sum_engine::{Stop, Streams};
use sum_lines::{FromWrite, Sink};
use sum_sources::{Answer, Ending, PIECE, Source, ToldSource};
use sum_words::{Tool, Words};

/// Runs a tool on its words. If the source tells all answers, as one in memory does, exactly the steps are performed
/// that the words mean by these answers.
fn run_in_memory<A: Allocator + Copy, S: Source, O: Sink, E: Sink>(
    alloc: A,
    tool: Tool,
    words: &Words<A>,
    streams: &mut Streams<S, O, E>,
) -> Result<u8, Stop>
    ensures { (answer : Answers) → TellsAll S.tells streams.old.inputs.told answer →
        let all = meaning tool words.now
        (record { answer = answer; opened = opened_names streams.old.inputs }) in
        PerformsSteps all.steps (status_of all.good) streams.old streams.new result }
{
    let outcome = run(alloc, tool, words, streams);
    told_performs(streams);
    outcome
}

fn main(rt: HostRuntime) -> anyhow::Result<ExitCode> {
    let mut files = ToldSource::new(rt.alloc(), PIECE);
    files.add(b"abc", Answer::Content(b"abc", Ending::Whole))?;
    files.add(b"empty", Answer::Content(b"", Ending::Whole))?;
    let mut words = Words::new(rt.alloc());
    for word in ["--tag", "abc", "empty"] {
        words.add(word)?;
    }
    let (out, err) = (FromWrite::new(rt.stdout()), FromWrite::new(rt.stderr()));
    let mut streams = Streams::new(files, out, err);
    let status = run_in_memory(rt.alloc(), Tool::Md5sum, &words, &mut streams)?;
    Ok(ExitCode::from(status))
}
