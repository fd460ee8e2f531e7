//! Checking a manifest, a line at a time.
ghost use Rattle.digest_kinds.specs.Bytes.{LIMIT};
ghost use Rattle.std.specs.Option.{ForSome};
ghost use Rattle.std.specs.Prelude.{◌≡◌, ◌≤◌, None};
ghost use Rattle.std.specs.Result.{ForOk};
ghost use Rattle.sum_engine.specs.check.{Checker.ReportsFound, Judge.HasNameRange, Rules.rules_of};

use crate::check::counts::is_good;
use crate::check::judge::{LineVerdict, Verdict};
use crate::check::progress::Progress;
use crate::check::report::put_report;
use crate::check::rules::Labels;
use crate::check::summary::put_summary;
use crate::check::verdicts::Verdicts;
use crate::streams::{Outputs, Streams};
use crate::tool_lines::NameFaultLine;
use std::alloc::Allocator;
use std::marker::Model;
use sum_lines::Sink;
use sum_settings::{CheckSettings, Stop};
use sum_sources::{Input, LineStop, Source};

/// Checks a manifest, a line at a time. A checker takes a line and handles it, and only then takes the next.
#[derive(Debug, Drop)]
pub struct Checker<'a, I> {
    verdicts: Verdicts<I>,
    labels: Labels<'a>,
    // Whether the manifest is good, or why the check stopped: every later step returns it again.
    outcome: Option<Result<bool, Stop>>,
}

impl<'a, I> Model for Checker<'a, I> {
    ghost use Rattle.sum_engine.specs.check.Checker.{CheckerValue};

    ghost Value = { CheckerValue I };

    ghost view = { λ c. record { verdicts = c.verdicts; labels = c.labels; outcome = c.outcome } };

    ghost use Rattle.std.specs.Prelude.{◌≡◌, None};

    ghost invariant = { λ c. c.outcome ≡ None → c.verdicts.outcome ≡ None };
}

impl<'a, I: Input> Checker<'a, I> {
    ghost use Rattle.sum_engine.specs.check.Checker.{TakesStep, outcome_in_step};
    ghost use Rattle.sum_engine.specs.check.Verdicts.{IsAtStart, KeepsOutcome};

    /// Creates a checker of the manifest that `input` gives. Its diagnostics begin with `tool`, for example `md5sum`,
    /// and show the name `manifest`. `from_stdin` says whether the manifest came from standard input: a line that names
    /// `-` is then improperly formatted. In any other manifest `-` is opened as any name.
    pub fn new(
        settings: CheckSettings,
        tool: &'a str,
        manifest: &'a [u8],
        from_stdin: bool,
        input: I,
    ) -> Self
        ensures rules { result.verdicts.rules ≡ rules_of settings from_stdin }
        ensures labels { result.labels
            ≡ record {
              tool = tool.entry.now;
              manifest = manifest.entry.now;
              report = settings.report;
            } }
        // Its first step handles the first line of the input.
        ensures start { IsAtStart I.state result.verdicts input }
        ensures outcome { result.outcome ≡ None }
    {
        Checker {
            verdicts: Verdicts::new(settings, from_stdin, input),
            labels: Labels {
                tool,
                manifest,
                report: settings.report,
            },
            outcome: None,
        }
    }

    /// Returns how many bytes the manifest's input has given.
    pub fn taken(&self) -> u64
        ensures value { result ≡ self.now.verdicts.reader.taken }
        ensures at_most { result ≤ LIMIT }
    {
        self.verdicts.taken()
    }

    /// Returns the manifest's input, past the bytes that it has given. Bytes that were read ahead of the last line are
    /// lost.
    pub fn into_inner(self) -> I
        ensures input { result ≡ self.entry.verdicts.reader.input }
    {
        self.verdicts.into_inner()
    }

    /// Handles the next line, or the end: writes the line's report, or the summary, or the line of the fault that broke
    /// the manifest. `line` grows to hold the line. Its previous content doesn't matter. Its content afterwards is
    /// unspecified, but after `Going` it isn't longer than the line.
    ///
    /// Returns `Stop::Memory` only if the source was refused memory, or bytes of the manifest were still to come;
    /// nothing is then written. Returns `Stop::Write` if an output fails; a prefix of the step's texts was then
    /// written. After `Ended` and after a stop, each step returns the same again and writes nothing.
    pub fn step<A: Allocator, S: Source, O: Sink, E: Sink>(
        &mut self,
        line: &mut Vec<u8, A>,
        streams: &mut Streams<S, O, E>,
    ) -> Result<Progress, Stop>
        // An outcome is returned again; the checker and the streams are unchanged.
        ensures outcome { KeepsOutcome outcome_in_step self.old.outcome self.new.outcome
            ((self.new ≡ self.old) × (streams.new ≡ streams.old)) result }
        // The next step of the behavior, for every content and in every world that agree with what was read.
        ensures step { self.old.outcome ≡ None
            → TakesStep I.state line.new.items self.old self.new streams.old streams.new result }
    {
        match self.outcome {
            None => {}
            Some(Ok(good)) => return Ok(Progress::Ended(good)),
            Some(Err(stop)) => return Err(stop),
        }
        let found = self.verdicts.next(line, &mut streams.inputs);
        let result = report_found(
            &self.verdicts,
            &self.labels,
            line,
            found,
            &mut streams.outputs,
        );
        // After a line the outcome stays `None`; storing it again would slow ignored lines.
        match result {
            Ok(Progress::Going) => {}
            Ok(Progress::Ended(good)) => self.outcome = Some(Ok(good)),
            Err(stop) => self.outcome = Some(Err(stop)),
        }
        result
    }
}

// Writes the report of the line in `line`, or the end of the manifest, according to what `next` returned. Returns what
// the step returns.
fn report_found<I: Input, O: Sink, E: Sink>(
    verdicts: &Verdicts<I>,
    labels: &Labels,
    line: &[u8],
    found: Result<Option<LineVerdict>, LineStop>,
    outputs: &mut Outputs<O, E>,
) -> Result<Progress, Stop>
    requires name_range { ForOk found (λ found. ForSome found (λ v. HasNameRange line.now v)) }
    ensures { ReportsFound verdicts.now labels.now line.now found outputs.old outputs.new result }
{
    let rules = verdicts.rules();
    match found {
        Err(LineStop::Memory) => Err(Stop::Memory),
        Err(LineStop::Fault(fault)) => {
            let (tool, name) = (labels.tool, labels.manifest);
            let line = NameFaultLine { tool, name, fault };
            outputs.write_err(&line, Progress::Ended(false))
        }
        Ok(None) => {
            let counts = verdicts.counts();
            let ended = Progress::Ended(is_good(rules, counts));
            put_summary(outputs, rules, labels, counts, ended)
        }
        Ok(Some(found)) => {
            // An ignored line returns here, since each call would slow it.
            if let Verdict::Ignored = found.verdict {
                return Ok(Progress::Going);
            }
            let (number, verdict, name) = (found.number, found.verdict, found.name(line));
            put_report(outputs, rules, labels, number, verdict, name)
        }
    }
}
