//! Callers that show a single clause of a checker, of verdicts and of their settings.
ghost use Rattle.digest_kinds.specs.{Bytes.ByteString};
ghost use Rattle.std.specs.Prelude.{◌≡◌, ◌≢◌, ◌<◌, ◌+◌, ◌*◌, Bool, true, false, IsTrue, None, Some, Ok};
ghost use Rattle.std.specs.Prelude.{Err, List, [], slice_range};
ghost use Rattle.std.specs.Prelude.{IfOk, IfSome};
ghost use Rattle.sum_engine.specs.Behavior.{World};
ghost use Rattle.sum_engine.specs.Execution.{Agrees};
ghost use Rattle.sum_engine.specs.check.{Counts.counts_and_line};
ghost use Rattle.sum_engine.specs.check.Judge.{HasNameRange};
ghost use Rattle.sum_engine.specs.declared.check.{judge.Verdict.Verdict, progress.Progress.TheVariants.Ended};
ghost use Rattle.sum_lines.specs.grammar.Form.{form_then, line_form};
ghost use Rattle.sum_settings.specs.declared.settings.Report.TheVariants.{All};
ghost use Rattle.sum_sources.specs.LineReader.{IsReading, reads_of, remaining_content};
ghost use Rattle.sum_sources.specs.LineReader.{HasNoNewline, lines_in};
ghost use Rattle.sum_sources.specs.declared.fault.Fault.{Fault};
ghost use Rattle.sum_sources.specs.declared.line_reader.LineStop.TheVariants.{Fault as LineFault};
ghost use Rattle.sum_sources.specs.declared.line_reader.LineStop.TheVariants.{Memory as LineMemory};
ghost use Rattle.sum_sources.specs.inputs.Input.{Content, Fits};

use digest_kinds::Algos;
use std::alloc::Allocator;
use sum_engine::{CheckSettings, Checker, Inputs, LineVerdict, Progress, Stop, Streams, Verdicts};
use sum_lines::Sink;
use sum_sources::{Input, LineStop, Source};

/// The name of a line's entry, which is cut from the line's vector.
pub fn entry_name<'a>(found: LineVerdict, line: &'a [u8]) -> &'a [u8]
    requires { HasNameRange line.now found }
    ensures { result.now ≡ slice_range line.now found.start found.stop }
{
    found.name(line)
}

/// Takes a step of a check. A line that was read ahead is handled before the next is read.
pub fn one_step<A: Allocator, I: Input, S: Source, O: Sink, E: Sink>(
    checker: &mut Checker<I>,
    line: &mut Vec<u8, A>,
    streams: &mut Streams<S, O, E>,
) -> Result<Progress, Stop>
    requires { checker.old.outcome ≡ None }
    ensures { ¬ HasNoNewline checker.old.verdicts.reader.ahead
        → checker.new.verdicts.reader.input ≡ checker.old.verdicts.reader.input }
{
    checker.step(line, streams)
}

/// Takes a step of a check. If it ends the check, no line was left, whether the manifest is good or not; and none is,
/// by what its reader returns from then on.
pub fn ends_check<A: Allocator, I: Input, S: Source, O: Sink, E: Sink>(
    checker: &mut Checker<I>,
    line: &mut Vec<u8, A>,
    streams: &mut Streams<S, O, E>,
) -> Result<Progress, Stop>
    requires going { checker.old.outcome ≡ None }
    requires reading { IsReading I.state checker.old.verdicts.reader }
    ensures before { (good : Bool) → result ≡ Ok (Ended good) → (c : Content)
        → Fits (reads_of I.state checker.new.verdicts.reader) c → (w : World) → Agrees w streams.new.inputs
        → lines_in (remaining_content checker.old.verdicts.reader c) ≡ [] }
    ensures after { (good : Bool) → result ≡ Ok (Ended good) → (c : Content)
        → Fits (reads_of I.state checker.new.verdicts.reader) c
        → lines_in (remaining_content checker.new.verdicts.reader c) ≡ [] }
{
    checker.step(line, streams)
}

/// Finds the next verdict, and returns whether it is that of a line: the number of lines, the form and the counts are
/// then those with this line.
pub fn takes_line<A: Allocator, I: Input, S: Source>(
    verdicts: &mut Verdicts<I>,
    line: &mut Vec<u8, A>,
    inputs: &mut Inputs<S>,
) -> bool
    requires going { verdicts.old.outcome ≡ None }
    requires reading { IsReading I.state verdicts.old.reader }
    ensures { IsTrue result → let p = verdicts.old in let q = verdicts.new in
        (c : Content) → Fits (reads_of I.state q.reader) c → (w : World) → Agrees w inputs.new
        → (l : ByteString) × (v : Verdict) × (q.reader.lines ≡ p.reader.lines + 1)
        × (q.form ≡ form_then p.form (line_form p.rules.algo l)) × (q.counts ≡ counts_and_line p.counts v) }
{
    matches!(verdicts.next(line, inputs), Ok(Some(_)))
}

/// Finds the next verdict, of one more line. Out of memory, the manifest's reader met no fault.
pub fn one_more_line<A: Allocator, I: Input, S: Source>(
    verdicts: &mut Verdicts<I>,
    line: &mut Vec<u8, A>,
    inputs: &mut Inputs<S>,
) -> Result<Option<LineVerdict>, LineStop>
    requires { verdicts.old.outcome ≡ None }
    ensures lines { IfOk result (λ found. IfSome found (λ v.
        verdicts.new.reader.lines ≡ verdicts.old.reader.lines + 1)) }
    ensures memory { result ≡ Err LineMemory → (f : Fault)
        → verdicts.new.reader.final_answer ≢ Some (Err (LineFault f)) }
{
    verdicts.next(line, inputs)
}

/// Finds the next verdict, and returns whether no line was left, whole or broken: nothing of the manifest then remains.
pub fn takes_end<A: Allocator, I: Input, S: Source>(
    verdicts: &mut Verdicts<I>,
    line: &mut Vec<u8, A>,
    inputs: &mut Inputs<S>,
) -> bool
    requires going { verdicts.old.outcome ≡ None }
    requires reading { IsReading I.state verdicts.old.reader }
    ensures { IsTrue result → (c : Content) → Fits (reads_of I.state verdicts.new.reader) c
        → (w : World) → Agrees w inputs.new
        → (remaining_content verdicts.new.reader c).bytes ≡ [] }
{
    matches!(
        verdicts.next(line, inputs),
        Ok(None) | Err(LineStop::Fault(_))
    )
}

/// The number of bytes that a check has read doesn't overflow if it is multiplied by 7.
pub fn sevenths_taken<'a, I: Input>(checker: &Checker<'a, I>) -> u64
    ensures { result ≡ 7 * checker.now.verdicts.reader.taken }
{
    7 * checker.taken()
}

/// The same of verdicts.
pub fn sevenths_read<I: Input>(verdicts: &Verdicts<I>) -> u64
    ensures { result ≡ 7 * verdicts.now.reader.taken }
{
    7 * verdicts.taken()
}

/// Returns whether a manifest is good, which it isn't before its end was found.
pub fn good_so_far<I: Input>(verdicts: &Verdicts<I>) -> bool
    ensures { verdicts.now.outcome ≡ None → result ≡ false }
{
    verdicts.is_good()
}

/// The plain check, made strict: no other setting differs from those of the words `--check --strict`.
pub fn strict_check(algos: Algos) -> CheckSettings
    ensures { result
        ≡ record { algo = algos; report = All; strict = true; ignore_missing = false } }
{
    let mut settings = CheckSettings::new(algos);
    settings.strict = true;
    settings
}
