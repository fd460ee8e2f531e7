//! The whole program, from the list of its arguments to its exit status.
ghost use Rattle.digests.specs.{Program.ProgramPerforms, private.Finish.Refuses, private.Messages.message_text};
ghost use Rattle.std.specs.Prelude.{◌≡◌, []};
ghost use Rattle.sum_engine.specs.{Execution.ReadsToEndIf, Streams.failures_of};

use crate::finish::finish_run;
use crate::messages::Message;
use crate::tool_run::run;
use std::alloc::Allocator;
use sum_engine::{Outputs, Streams};
use sum_lines::Sink;
use sum_sources::Source;
use sum_words::{Arguments, CommandLine, NoRoom, read_command_line};

/// Does what the program was called for, and returns its exit status. If the program was called by a tool's name, as
/// through a link, it is that tool; otherwise the first word names the tool.
///
/// If no tool is named, it writes `digests: unknown tool` to standard error, and the status is 1. If memory is needed,
/// for an argument after the tool's place or for one longer than 4,096 bytes, it may write `digests: words not read`
/// and nothing else, and the status is 1. After a stop of a tool's run, it writes `TOOL: memory exhausted` or
/// `TOOL: write error`, or a prefix of that if standard error fails, and the status is 1.
pub fn command<A: Allocator + Copy, G: Arguments, S: Source, O: Sink, E: Sink>(
    alloc: A,
    arguments: &mut G,
    streams: &mut Streams<S, O, E>,
) -> u8
    requires given { (G.state arguments.old).given ≡ [] }
    // The behavior of every list of arguments that agrees with what was given, in every world that agrees with what was
    // read.
    ensures behavior { ProgramPerforms (G.state arguments.new) streams.old streams.new result }
    ensures told { (G.state arguments.new).told ≡ (G.state arguments.old).told }

    // One way: the status is 0 only if no call of either output failed.
    ensures no_failures { result ≡ 0 → failures_of streams.new.outputs ≡ failures_of streams.old.outputs }
    // The status is 0 only if everything that was opened was read to its end; nothing was read further.
    ensures reads { ReadsToEndIf (result ≡ 0) streams.old.inputs streams.new.inputs }
{
    match read_command_line(alloc, arguments) {
        Ok(CommandLine::Invoke(tool, words)) => {
            let outcome = run(alloc, tool, &words, streams);
            finish_run(Some(tool), outcome, &mut streams.outputs)
        }
        Ok(CommandLine::UnknownTool) => refuse(Message::UnknownTool, &mut streams.outputs),
        Err(NoRoom) => refuse(Message::NotRead, &mut streams.outputs),
    }
}

// Writes why no tool is run, and returns the exit status.
fn refuse<O: Sink, E: Sink>(message: Message, outputs: &mut Outputs<O, E>) -> u8
    ensures refusal { Refuses (message_text message.entry) outputs.old outputs.new result }
    ensures not_good { result ≡ 0 → ⊥ }
{
    let outcome = outputs.write_err(&message, 1);
    finish_run(None, outcome, outputs)
}
