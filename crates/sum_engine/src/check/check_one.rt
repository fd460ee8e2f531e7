//! Checking one manifest.
ghost use Rattle.std.specs.Prelude.{◌≡◌, true, None, Ok, IfErr, codes, if◌then◌else◌};
ghost use Rattle.sum_engine.specs.Execution.{Performs, ReadsToEndIf};
ghost use Rattle.sum_engine.specs.Streams.{FailuresMatch};
ghost use Rattle.sum_engine.specs.check.CheckOne.{StopsAtLine, check_behavior};
ghost use Rattle.sum_engine.specs.{check.Verdicts.IsAtStart, private.CheckOne.RunsManifest};
ghost use Rattle.sum_sources.specs.sources.WithStdin.{is_dash};

use crate::check::checker::Checker;
use crate::check::progress::Progress;
use crate::streams::Streams;
use crate::tool_lines::NameFaultLine;
use std::alloc::Allocator;
use sum_lines::Sink;
use sum_settings::{CheckSettings, Stop};
use sum_sources::{Input, OpenFault, Source, is_dash};

/// Checks the manifest of this name and returns whether it is good. The reports of its lines
/// and its summary go to `out` and `err` (coreutils manual, "md5sum invocation", `--check`). A manifest that can't be
/// opened and read to its end isn't good, and its fault goes to `err`.
///
/// Returns `Stop::Memory` only if the source was refused memory, or bytes of the manifest were still to come; the
/// reports of the lines handled so far were then written. Returns `Stop::Write` if an output fails; a prefix of the
/// reports and the summary, in order, was then written.
pub fn check_one<A: Allocator + Copy, S: Source, O: Sink, E: Sink>(
    alloc: A,
    settings: CheckSettings,
    tool: &str,
    name: &[u8],
    streams: &mut Streams<S, O, E>,
) -> Result<bool, Stop>
    // The behavior of checking that name, in every world that agrees with what was read.
    ensures behavior { Performs (λ w. check_behavior settings tool.now w name.now) (λ good. good)
        streams.old streams.new result }
    // Returns true only if the manifest and each file that was opened were read to their ends; none was read further.
    ensures reads { ReadsToEndIf (result ≡ Ok true) streams.old.inputs streams.new.inputs }
    // After a stop: at most 8,192 bytes of the manifest were read past the line of the step at which it came.
    ensures ahead { IfErr result (λ stop.
        StopsAtLine stop (λ w. check_behavior settings tool.now w name.now) name.now streams.old
        streams.new) }
    // A write fault comes with one more failure, of one output.
    ensures failures { FailuresMatch streams.old.outputs streams.new.outputs result }
{
    let shown = shown_name(name);
    let input = match streams.inputs.open(name) {
        Ok(opened) => opened,
        Err(OpenFault::Memory) => return Err(Stop::Memory),
        Err(OpenFault::Fault(fault)) => {
            let line = NameFaultLine {
                tool,
                name: shown,
                fault,
            };
            return streams.outputs.write_err(&line, false);
        }
    };
    let from_stdin = is_dash(name);
    let checker = Checker::new(settings, tool, shown, from_stdin, input);
    let (result, input) = run_to_end(alloc, checker, streams);
    streams.inputs.close(input);
    result
}

// The manifest's name, as reports show it.
fn shown_name(name: &[u8]) -> &[u8]
    ensures { result.now ≡ (if is_dash name.now then codes "standard input" else name.now) }
{
    if is_dash(name) {
        b"standard input"
    } else {
        name
    }
}

// Steps through the manifest of a new checker to its end, and gives the manifest's input back: each step handles one
// line, and the last one the end.
fn run_to_end<'a, A: Allocator, I: Input, S: Source, O: Sink, E: Sink>(
    alloc: A,
    mut checker: Checker<'a, I>,
    streams: &mut Streams<S, O, E>,
) -> (Result<bool, Stop>, I)
    requires start { IsAtStart I.state checker.verdicts checker.verdicts.reader.input }
    requires outcome { checker.outcome ≡ None }
    ensures { RunsManifest checker.entry.verdicts.rules checker.entry.labels
        (I.state checker.entry.verdicts.reader.input) (I.state result.1) streams.old
        streams.new result.0 }
{
    let mut line = Vec::new(alloc);
    let result = 'lines: loop {
        match checker.step(&mut line, streams) {
            Ok(Progress::Going) => {}
            Ok(Progress::Ended(good)) => break Ok(good),
            Err(stop) => break Err(stop),
        }
    };
    (result, checker.into_inner())
}
