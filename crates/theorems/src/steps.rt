//! A check step by step: a new checker, each of its steps and, one at a time, the verdicts that it finds.
ghost use Rattle.sum_sources.specs.declared.inputs.input.TheConstants.{PIECE};
ghost use Rattle.digest_kinds.specs.Bytes.{ByteString};
ghost use Rattle.std.specs.Prelude.{◌≡◌, ◌≤◌, ◌+◌, ◌∷◌, [], None, Ok, Err, Some, length};
ghost use Rattle.sum_engine.specs.Behavior.{Behavior, Step, World};
ghost use Rattle.sum_engine.specs.Execution.{Agrees, OpensNames, world_at};
ghost use Rattle.sum_engine.specs.check.Checker.{IsStep, behavior_from, remaining_behavior};
ghost use Rattle.sum_engine.specs.check.{CheckOne.remaining_before, Rules.rules_of};
ghost use Rattle.sum_engine.specs.check.Judge.{names_in_line, line_verdict_value};
ghost use Rattle.sum_engine.specs.check.Verdicts.{initial_state, remaining_verdicts, state_at};
ghost use Rattle.sum_engine.specs.declared.check.judge.LineVerdict.{LineVerdict as LineVerdictOf};
ghost use Rattle.sum_engine.specs.declared.check.progress.Progress.TheVariants.{Going};
ghost use Rattle.sum_lines.specs.grammar.Form.{form_then, line_form};
ghost use Rattle.sum_settings.specs.declared.stop.Stop.TheVariants.{Memory};
ghost use Rattle.sum_sources.specs.LineReader.{IsReading, consumed_count, reads_of, remaining_content};
ghost use Rattle.sum_sources.specs.LineReader.{lines_in};
ghost use Rattle.sum_sources.specs.declared.fault.{Ending.TheVariants.Broken, Ending.TheVariants.Whole};
ghost use Rattle.sum_sources.specs.declared.fault.Fault.{Fault as FaultValue};
ghost use Rattle.sum_sources.specs.declared.inputs.input.Phase.TheVariants.{Unfinished};
ghost use Rattle.sum_sources.specs.inputs.Input.{Content, Fits, clip};

use std::alloc::Allocator;
use sum_engine::{CheckSettings, Checker, Inputs, LineVerdict, Progress, Stop, Streams, Verdicts};
use sum_lines::Sink;
use sum_sources::{Input, LineStop, Source};

/// A new checker is at the start of its manifest: all of the content remains, as far as the limit allows, and nothing
/// was found or read. The premise: the input hasn't ended.
pub fn check_begins<'a, I: Input>(
    settings: CheckSettings,
    tool: &'a str,
    manifest: &'a [u8],
    from_stdin: bool,
    input: I,
) -> Checker<'a, I>
    requires { (I.state input).reads.phase ≡ Unfinished }
    ensures outcome { result.outcome ≡ None }
    ensures rules { result.verdicts.rules ≡ rules_of settings from_stdin }
    ensures labels { result.labels
        ≡ record { tool = tool.now; manifest = manifest.now; report = settings.report } }
    ensures reading { IsReading I.state result.verdicts.reader }
    ensures state { (content : Content) (world : World)
        → state_at result.verdicts (remaining_content result.verdicts.reader content) world
        ≡ initial_state (clip content) world }
{
    Checker::new(settings, tool, manifest, from_stdin, input)
}

/// Each call of `step` is a step of the check: for each content that fits what was read of the manifest, in each world
/// that agrees. The theorems `steps_so_far` and `last_step` are about such steps, one after another.
pub fn step_taken<A: Allocator, I: Input, S: Source, O: Sink, E: Sink>(
    checker: &mut Checker<I>,
    line: &mut Vec<u8, A>,
    streams: &mut Streams<S, O, E>,
) -> Result<Progress, Stop>
    requires going { checker.old.outcome ≡ None }
    requires reading { IsReading I.state checker.old.verdicts.reader }
    ensures reading { IsReading I.state checker.new.verdicts.reader }
    ensures rules { checker.new.verdicts.rules ≡ checker.old.verdicts.rules }
    ensures labels { checker.new.labels ≡ checker.old.labels }
    ensures going { result ≡ Ok Going → checker.new.outcome ≡ None }
    ensures before { (content : Content) → Fits (reads_of I.state checker.new.verdicts.reader) content
        → Fits (reads_of I.state checker.old.verdicts.reader) content }
    ensures step { (content : Content) → Fits (reads_of I.state checker.new.verdicts.reader) content
        → (w : World) → Agrees w streams.new.inputs
        → let old = checker.old.verdicts in let new = checker.new.verdicts in
        IsStep old.rules checker.old.labels line.new.items
        (state_at old (remaining_content old.reader content) (world_at w streams.old.inputs))
        (state_at new (remaining_content new.reader content) (world_at w streams.new.inputs))
        streams.old streams.new result }
{
    checker.step(line, streams)
}

/// A step that returns `Going` has handled the first of the lines that remained: the form, the number of lines and that
/// of bytes are those with this line. The vector doesn't hold more bytes than the line.
pub fn line_handled<A: Allocator, I: Input, S: Source, O: Sink, E: Sink>(
    checker: &mut Checker<I>,
    line: &mut Vec<u8, A>,
    streams: &mut Streams<S, O, E>,
) -> Result<Progress, Stop>
    requires going { checker.old.outcome ≡ None }
    requires reading { IsReading I.state checker.old.verdicts.reader }
    ensures { result ≡ Ok Going → (content : Content)
        → Fits (reads_of I.state checker.new.verdicts.reader) content
        → (w : World) → Agrees w streams.new.inputs
        → let old = checker.old.verdicts in let new = checker.new.verdicts in
        let before = remaining_content old.reader content in let after = remaining_content new.reader content in
        (handled : ByteString) × (lines_in before ≡ handled ∷ lines_in after)
        × (new.form ≡ form_then old.form (line_form old.rules.algo handled))
        × (new.reader.lines ≡ old.reader.lines + 1)
        × (consumed_count new.reader + length after.bytes ≡ consumed_count old.reader + length before.bytes)
        × (length line.new.items ≤ length handled) }
{
    checker.step(line, streams)
}

/// Whatever a step returns, at most 8,192 bytes past the consumed ones were read. If it runs out of memory, at most as
/// many past the line that it was to handle.
pub fn step_reads_near_line<A: Allocator, I: Input, S: Source, O: Sink, E: Sink>(
    checker: &mut Checker<I>,
    line: &mut Vec<u8, A>,
    streams: &mut Streams<S, O, E>,
) -> Result<Progress, Stop>
    requires going { checker.old.outcome ≡ None }
    requires reading { IsReading I.state checker.old.verdicts.reader }
    ensures ahead { let new = checker.new.verdicts.reader in new.taken ≤ consumed_count new + PIECE }
    ensures memory { result ≡ Err Memory → (content : Content)
        → Fits (reads_of I.state checker.new.verdicts.reader) content
        → (w : World) → Agrees w streams.new.inputs → let old = checker.old.verdicts in
        let before = remaining_content old.reader content in (step : Step) × (later : Behavior)
        × (remaining_behavior old.rules checker.old.labels (state_at old before (world_at w streams.old.inputs))
        ≡ behavior_from step later)
        × (checker.new.verdicts.reader.taken + remaining_before later.steps
        ≤ consumed_count old.reader + length before.bytes + PIECE) }
{
    checker.step(line, streams)
}

/// `Verdicts::next` returns the first of the verdicts that remained, and opens exactly the name that it is about. If it
/// returns that no line is left, or a fault, no verdict remained, the manifest ends so, and nothing was opened.
pub fn verdict_found<A: Allocator, I: Input, S: Source>(
    verdicts: &mut Verdicts<I>,
    line: &mut Vec<u8, A>,
    inputs: &mut Inputs<S>,
) -> Result<Option<LineVerdict>, LineStop>
    requires going { verdicts.old.outcome ≡ None }
    requires reading { IsReading I.state verdicts.old.reader }
    ensures reading { IsReading I.state verdicts.new.reader }
    ensures found { (found : LineVerdictOf) → result ≡ Ok (Some found) → (content : Content)
        → Fits (reads_of I.state verdicts.new.reader) content → (w : World) → Agrees w inputs.new
        → let old = verdicts.old in let new = verdicts.new in
        remaining_verdicts old.rules
        (state_at old (remaining_content old.reader content) (world_at w inputs.old))
        ≡ line_verdict_value line.new.items found ∷ remaining_verdicts new.rules
        (state_at new (remaining_content new.reader content) (world_at w inputs.new)) }
    ensures opened { (found : LineVerdictOf) → result ≡ Ok (Some found)
        → OpensNames inputs.old inputs.new (names_in_line (line_verdict_value line.new.items found)) }
    ensures end { result ≡ Ok None → (content : Content)
        → Fits (reads_of I.state verdicts.new.reader) content → (w : World) → Agrees w inputs.new
        → let old = verdicts.old in let left = remaining_content old.reader content in
        (remaining_verdicts old.rules (state_at old left (world_at w inputs.old)) ≡ [])
        × (left.ending ≡ Whole) × OpensNames inputs.old inputs.new [] }
    ensures fault { (fault : FaultValue) → result ≡ Err (LineStop.Fault fault) → (content : Content)
        → Fits (reads_of I.state verdicts.new.reader) content → (w : World) → Agrees w inputs.new
        → let old = verdicts.old in let left = remaining_content old.reader content in
        (remaining_verdicts old.rules (state_at old left (world_at w inputs.old)) ≡ [])
        × (left.ending ≡ Broken fault) × OpensNames inputs.old inputs.new [] }
{
    verdicts.next(line, inputs)
}
