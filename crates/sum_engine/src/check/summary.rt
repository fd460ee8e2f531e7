//! The end of a manifest.
ghost use Rattle.digest_kinds.specs.Bytes.{LIMIT};
ghost use Rattle.std.specs.Prelude.{◌≡◌, ◌≤◌, []};
ghost use Rattle.sum_engine.specs.{Streams.WritesAndReturns, check.Counts.total};
ghost use Rattle.sum_engine.specs.check.Summary.{end_text, unverified_line, warning, warnings};
ghost use Rattle.sum_lines.specs.sinks.Buffered.{WritesAll};
ghost use Rattle.sum_sources.specs.declared.fault.Ending.TheVariants.{Whole};

use crate::check::counts::Counts;
use crate::check::progress::Progress;
use crate::check::rules::{CheckRules, Labels};
use crate::streams::Outputs;
use crate::tool_lines::tool_line;
use sum_lines::{Buffered, Part, Parts, Sink, SinkFault, Text, put_parts};
use sum_settings::{Report, Stop};

/// Writes the end of a manifest that was read whole to standard error, and then returns `ended`.
pub(crate) fn put_summary<O: Sink, E: Sink>(
    outputs: &mut Outputs<O, E>,
    rules: CheckRules,
    labels: &Labels,
    counts: Counts,
    ended: Progress,
) -> Result<Progress, Stop>
    requires { total counts ≤ LIMIT }
    ensures { WritesAndReturns outputs.old outputs.new
        (end_text rules labels.now Whole counts) [] ended result }
{
    if counts.entries() == 0 {
        let text = b"no properly formatted checksum lines found";
        let line = tool_line(labels.tool, labels.manifest, text);
        return outputs.write_err(&Parts(&line), ended);
    }
    match labels.report {
        Report::Status => Ok(ended),
        _ => {
            let warnings = Warnings {
                rules,
                labels,
                counts,
            };
            outputs.write_err(&warnings, ended)
        }
    }
}

// The warnings at a manifest's end.
#[derive(Clone, Copy)]
struct Warnings<'a> {
    rules: CheckRules,
    labels: &'a Labels<'a>,
    counts: Counts,
}

impl<'a> Text for Warnings<'a> {
    ghost use Rattle.sum_engine.specs.check.Summary.{warnings};

    ghost text = { λ w. warnings w.rules w.labels.now w.counts };

    fn put<S: Sink>(&self, sink: &mut Buffered<S>) -> Result<(), SinkFault> {
        put_warnings(sink, self.rules, self.labels, self.counts)
    }
}

#[tactic(auto, using(sum_lines::proofs::SinkLemmas::writes_then, sum_lines::proofs::SinkLemmas::writes_stop))]
fn put_warnings<E: Sink>(
    err: &mut Buffered<E>,
    rules: CheckRules,
    labels: &Labels,
    counts: Counts,
) -> Result<(), SinkFault>
    ensures { WritesAll err.old err.new (warnings rules labels.now counts) result }
{
    put_warning(
        err,
        labels,
        counts.bad,
        b" line is improperly formatted",
        b" lines are improperly formatted",
    )?;
    put_warning(
        err,
        labels,
        counts.unread,
        b" listed file could not be read",
        b" listed files could not be read",
    )?;
    put_warning(
        err,
        labels,
        counts.wrong,
        b" computed checksum did NOT match",
        b" computed checksums did NOT match",
    )?;
    put_unverified(err, rules, labels, counts)
}

fn put_warning<'a, E: Sink>(
    err: &mut Buffered<E>,
    labels: &'a Labels<'a>,
    count: u64,
    one: &'a [u8],
    many: &'a [u8],
) -> Result<(), SinkFault>
    ensures { WritesAll err.old err.new (warning labels.now.tool count one.now many.now) result }
{
    if count == 0 {
        return Ok(());
    }
    let text = if count == 1 { one } else { many };
    put_parts(
        err,
        &[
            Part::Bytes(labels.tool.as_bytes()),
            Part::Bytes(b": WARNING: "),
            Part::Number(count),
            Part::Bytes(text),
            Part::Bytes(b"\n"),
        ],
    )
}

fn put_unverified<E: Sink>(
    err: &mut Buffered<E>,
    rules: CheckRules,
    labels: &Labels,
    counts: Counts,
) -> Result<(), SinkFault>
    ensures { WritesAll err.old err.new (unverified_line rules labels.now counts) result }
{
    if rules.ignore_missing && counts.right == 0 {
        let line = tool_line(labels.tool, labels.manifest, b"no file was verified");
        return put_parts(err, &line);
    }
    Ok(())
}
