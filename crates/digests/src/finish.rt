//! The end of a run: both outputs are flushed once more, and a stop is reported in a line.
ghost use Rattle.digests.specs.{Program.stop_line, private.Finish.FinishesRun, private.Finish.FlushesBoth};
ghost use Rattle.std.specs.Prelude.{◌≡◌, Ok};
ghost use Rattle.sum_engine.specs.Streams.{failures_of};
ghost use Rattle.sum_lines.specs.sinks.GivesAll.{GivesAll};

use crate::messages::Message;
use sum_engine::{Outputs, Stop};
use sum_lines::{Output, Parts, Sink, SinkFault};
use sum_words::Tool;

/// Ends a run with this outcome. It flushes both outputs once more, unless the run stopped. After a stop or a failed
/// flush, it writes the line for a stop. Returns the exit status: that of the run, or 1 after a stop or a failed flush.
pub(crate) fn finish_run<O: Sink, E: Sink>(
    tool: Option<Tool>,
    outcome: Result<u8, Stop>,
    outputs: &mut Outputs<O, E>,
) -> u8
    ensures finish { FinishesRun tool outcome outputs.old outputs.new result }
    ensures good_run { result ≡ 0 → outcome ≡ Ok 0 }
    ensures no_failures { result ≡ 0 → failures_of outputs.new ≡ failures_of outputs.old }
{
    match flush_both(outcome, outputs) {
        Ok(status) => status,
        Err(stop) => {
            let _ = put_stop_message(tool, stop, &mut outputs.err);
            1
        }
    }
}

// Flushes both outputs, unless the run stopped, by writing an empty text to each. Returns what the run returned, or
// `Stop::Write` if a flush failed, as it may even if nothing was written.
fn flush_both<O: Sink, E: Sink>(
    outcome: Result<u8, Stop>,
    outputs: &mut Outputs<O, E>,
) -> Result<u8, Stop>
    ensures { FlushesBoth outputs.old outputs.new outcome result }
{
    let status = outcome?;
    let nothing = Parts(&[]);
    outputs.write_err(&nothing, status)?;
    outputs.write_out(&nothing, status)
}

// If there is a tool, writes the line for a stop, which begins with the tool's name.
fn put_stop_message<E: Sink>(
    tool: Option<Tool>,
    stop: Stop,
    err: &mut Output<E>,
) -> Result<(), SinkFault>
    ensures { GivesAll err.old err.new (stop_line tool stop) result }
{
    match tool {
        None => Ok(()),
        Some(tool) => err.write(&Message::Stop(tool, stop)),
    }
}
