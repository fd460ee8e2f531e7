//! The lines that checking writes about a manifest's lines.
ghost use Rattle.std.specs.{List.concat, Prelude.◌≡◌, Prelude.[], Prelude.◌∷◌};
ghost use Rattle.sum_engine.specs.{Streams.WritesAndReturns, check.Checker.Going};
ghost use Rattle.sum_engine.specs.check.Report.{bad_line, err_by, out_by, tag_word};
ghost use Rattle.sum_lines.specs.{Escape.escape, Escape.escape_differs, grammar.Shapes.backslash_if};
ghost use Rattle.sum_lines.specs.sinks.GivesAll.{GivesAll};
ghost use Rattle.sum_settings.specs.declared.settings.Report.TheVariants.{All};

use crate::check::judge::Verdict;
use crate::check::progress::Progress;
use crate::check::rules::{CheckRules, Labels};
use crate::streams::Outputs;
use crate::tool_lines::NameFaultLine;
use digest_kinds::Algos;
use sum_lines::{Output, Part, Parts, Sink, SinkFault, mark_and_name};
use sum_settings::{Report, Stop};

/// Writes the report of a line with this number, verdict and name: first to `err`, and then to `out`. Returns `Going`.
pub(crate) fn put_report<O: Sink, E: Sink>(
    outputs: &mut Outputs<O, E>,
    rules: CheckRules,
    labels: &Labels,
    number: u64,
    verdict: Verdict,
    name: &[u8],
) -> Result<Progress, Stop>
    ensures { WritesAndReturns outputs.old outputs.new
        (err_by rules labels.now number verdict labels.now.report name.now)
        (out_by labels.now.report verdict name.now) Going result }
{
    put_err(&mut outputs.err, rules, labels, number, verdict, name)?;
    put_out(&mut outputs.out, labels.report, verdict, name)?;
    Ok(Progress::Going)
}

fn put_out<O: Sink>(
    out: &mut Output<O>,
    report: Report,
    verdict: Verdict,
    name: &[u8],
) -> Result<(), SinkFault>
    ensures { GivesAll out.old out.new (out_by report verdict name.now) result }
{
    match (report, verdict) {
        (Report::Status, _) | (Report::Quiet, Verdict::Right) => Ok(()),
        _ => put_verdict(out, verdict, name),
    }
}

fn put_verdict<O: Sink>(out: &mut Output<O>, verdict: Verdict, name: &[u8]) -> Result<(), SinkFault>
    ensures { GivesAll out.old out.new (out_by All verdict name.now) result }
{
    match verdict {
        Verdict::Ignored | Verdict::Bad | Verdict::Missing => Ok(()),
        Verdict::Right => put_name_line(out, name, b": OK\n"),
        Verdict::Wrong => put_name_line(out, name, b": FAILED\n"),
        Verdict::Unread(_) => put_name_line(out, name, b": FAILED open or read\n"),
    }
}

// Writes the name, as a line begins with it, and what follows it.
fn put_name_line<'a, O: Sink>(
    out: &mut Output<O>,
    name: &'a [u8],
    text: &'a [u8],
) -> Result<(), SinkFault>
    ensures { GivesAll out.old out.new (concat
        (backslash_if (escape_differs name.now) ∷ escape name.now ∷ text.now ∷ [])) result }
{
    let (mark, name) = mark_and_name(name);
    out.write(&Parts(&[Part::Bytes(mark), name, Part::Bytes(text)]))
}

fn put_err<E: Sink>(
    err: &mut Output<E>,
    rules: CheckRules,
    labels: &Labels,
    number: u64,
    verdict: Verdict,
    name: &[u8],
) -> Result<(), SinkFault>
    ensures { GivesAll err.old err.new
        (err_by rules labels.now number verdict labels.now.report name.now) result }
{
    match verdict {
        Verdict::Ignored | Verdict::Right | Verdict::Wrong | Verdict::Missing => Ok(()),
        Verdict::Bad => match labels.report {
            Report::Warn => put_bad_line(err, rules, labels, number),
            _ => Ok(()),
        },
        Verdict::Unread(fault) => {
            let tool = labels.tool;
            err.write(&NameFaultLine { tool, name, fault })
        }
    }
}

fn put_bad_line<E: Sink>(
    err: &mut Output<E>,
    rules: CheckRules,
    labels: &Labels,
    number: u64,
) -> Result<(), SinkFault>
    ensures { GivesAll err.old err.new
        (bad_line rules labels.now number) result }
{
    let word = tag_word(rules.algo);
    err.write(&Parts(&[
        Part::Bytes(labels.tool.as_bytes()),
        Part::Bytes(b": "),
        Part::Escaped(labels.manifest),
        Part::Bytes(b": "),
        Part::Number(number),
        Part::Bytes(b": improperly formatted "),
        Part::Bytes(word.as_bytes()),
        Part::Bytes(b" checksum line\n"),
    ]))
}

// The word for the tag in a report.
fn tag_word(algos: Algos) -> &'static str
    ensures { result.now ≡ tag_word algos }
{
    match algos {
        Algos::One(algo) => algo.tag(),
        Algos::Any => "tagged",
    }
}
