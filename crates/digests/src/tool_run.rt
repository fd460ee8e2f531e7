//! The run of a tool on its words.
ghost use Rattle.digests.specs.ToolRun.{operands_behavior, request_behavior, names_or_dash, meaning, status_of};
ghost use Rattle.digests.specs.private.ToolRun.{operand_behavior};
ghost use Rattle.std.specs.Prelude.{◌≡◌, ◌∷◌, true, Ok};
ghost use Rattle.sum_engine.specs.Execution.{ReadsToEndIf, Performs};
ghost use Rattle.sum_engine.specs.Streams.{FailuresMatch};
ghost use Rattle.sum_words.specs.{Tool.name_of, parsing.WordFault.result_value};

use crate::messages::Message;
use std::alloc::Allocator;
use sum_engine::{CheckSettings, Settings, Stop, Streams, check_one, generate_one};
use sum_lines::Sink;
use sum_sources::Source;
use sum_words::{Operands, Request, Tool, WordFault, Words, read_words};

/// Runs a tool on its words, and returns the status: 0 if all is good, otherwise 1 (coreutils manual, "md5sum
/// invocation").
///
/// Returns `Stop::Memory` only if the source was refused memory to open a file, or bytes of a manifest were still to
/// come. The first steps of the behavior then happened: those before an operand or, in checking, before a line of a
/// manifest or its end. Returns `Stop::Write` only if an output failed. A prefix of the trace then happened.
pub fn run<A: Allocator + Copy, S: Source, O: Sink, E: Sink>(
    alloc: A,
    tool: Tool,
    words: &Words<A>,
    streams: &mut Streams<S, O, E>,
) -> Result<u8, Stop>
    // The behavior that the words mean, in every world that agrees with what was read.
    ensures behavior { Performs (meaning tool words.now) status_of streams.old streams.new result }

    // A write fault comes with one more failure, of one output.
    ensures failures { FailuresMatch streams.old.outputs streams.new.outputs result }

    // The status is 0 only if everything that was opened was read to its end; nothing was read further.
    ensures reads { ReadsToEndIf (result ≡ Ok 0) streams.old.inputs streams.new.inputs }
{
    run_request(alloc, tool, read_words(tool, words), streams)
}

// Does what a request, or a fault in the words, asks for.
fn run_request<A: Allocator + Copy, S: Source, O: Sink, E: Sink>(
    alloc: A,
    tool: Tool,
    asked: Result<Request, WordFault>,
    streams: &mut Streams<S, O, E>,
) -> Result<u8, Stop>
    ensures behavior { Performs (request_behavior tool (result_value asked.entry))
        status_of streams.old
        streams.new result }
    ensures failures { FailuresMatch streams.old.outputs streams.new.outputs result }
    ensures reads { ReadsToEndIf (result ≡ Ok 0) streams.old.inputs streams.new.inputs }
{
    match asked {
        Err(fault) => streams.outputs.write_err(&Message::Fault(tool, &fault), 1),
        Ok(Request::Help) => streams.outputs.write_out(&Message::Help(tool), 0),
        Ok(Request::Version) => streams.outputs.write_out(&Message::Version(tool), 0),
        Ok(Request::Generate(settings, operands)) => {
            run_operands(alloc, &Job::Generate(settings), tool, operands, streams)
        }
        Ok(Request::Check(settings, operands)) => {
            run_operands(alloc, &Job::Check(settings), tool, operands, streams)
        }
    }
}

// What is done with each operand.
#[derive(Clone, Copy)]
enum Job {
    Generate(Settings),
    Check(CheckSettings),
}

// Does a job with one operand.
fn run_operand<A: Allocator + Copy, S: Source, O: Sink, E: Sink>(
    alloc: A,
    job: &Job,
    tool: Tool,
    name: &[u8],
    streams: &mut Streams<S, O, E>,
) -> Result<bool, Stop>
    ensures behavior { Performs (λ w. operand_behavior job.now (name_of tool) w name.now)
        (λ good. good)
        streams.old streams.new result }
    ensures failures { FailuresMatch streams.old.outputs streams.new.outputs result }
    ensures reads { ReadsToEndIf (result ≡ Ok true) streams.old.inputs streams.new.inputs }
{
    match job {
        Job::Generate(settings) => generate_one(settings, tool.name(), name, streams),
        Job::Check(settings) => check_one(alloc, *settings, tool.name(), name, streams),
    }
}

// The first operand, or `-` if there is none.
fn first_name<'a>(operands: &mut Operands<'a>) -> &'a [u8]
    ensures { names_or_dash operands.old ≡ result.now ∷ operands.new }
{
    operands.next().unwrap_or(b"-")
}

// Does a job with all operands, one after another.
fn run_operands<A: Allocator + Copy, S: Source, O: Sink, E: Sink>(
    alloc: A,
    job: &Job,
    tool: Tool,
    mut operands: Operands,
    streams: &mut Streams<S, O, E>,
) -> Result<u8, Stop>
    ensures behavior { Performs (λ w. operands_behavior (operand_behavior job.now (name_of tool)) w
        (names_or_dash operands.entry)) status_of
        streams.old streams.new result }
    ensures failures { FailuresMatch streams.old.outputs streams.new.outputs result }
    ensures reads { ReadsToEndIf (result ≡ Ok 0) streams.old.inputs streams.new.inputs }
{
    let mut next = Some(first_name(&mut operands));
    let mut good = true;
    'operands: while let Some(name) = next {
        good &= run_operand(alloc, job, tool, name, streams)?;
        next = operands.next();
    }
    Ok(status(good))
}

// The exit status of a run: 0 if all of it was good.
fn status(good: bool) -> u8
    ensures { result ≡ status_of good }
{
    if good { 0 } else { 1 }
}
