//! One operand: a name that is hashed, and a manifest that is checked, as a whole or a step at a time.
ghost use Rattle.sum_sources.specs.declared.inputs.input.TheConstants.{PIECE};
ghost use Rattle.digest_kinds.specs.{Bytes.ByteString, Kind.KindValue};
ghost use Rattle.std.specs.Prelude.{◌≡◌, ◌↔◌, ◌≤◌, ◌<◌, ◌+◌, ◌⊎◌, ◌∷◌, ◌++◌, [], All, Bool, List, None, Ok, Err, ℕ, ⊤};
ghost use Rattle.std.specs.Prelude.{IsTrue, OnErr, OnOk, Some, codes, false, true, flat_map, length, map};
ghost use Rattle.std.specs.Prelude.{slice_index_or, take};
ghost use Rattle.sum_engine.specs.Behavior.{Behavior, Step, World, answer_to, names_in, trace};
ghost use Rattle.sum_engine.specs.Execution.{Agrees, OpensNames, Happened, PerformsSteps, ReadsFile, opened_names};
ghost use Rattle.sum_engine.specs.{Execution.world_at, Generate.generate_behavior};
ghost use Rattle.sum_engine.specs.{Laws.TakesSteps, Streams.StreamsState};
ghost use Rattle.sum_engine.specs.check.CheckOne.{check_behavior, content_behavior, remaining_before};
ghost use Rattle.sum_engine.specs.check.Checker.{IsStep, behavior_from, progress_before, remaining_behavior};
ghost use Rattle.sum_engine.specs.check.{Counts.counts_and_line, Judge.LineVerdictValue, Judge.all_verdicts};
ghost use Rattle.sum_engine.specs.check.Judge.{line_verdict_value};
ghost use Rattle.sum_engine.specs.check.{Judge.names_in_line, Judge.verdicts_of};
ghost use Rattle.sum_engine.specs.check.{Report.err_of, Report.out_of, Rules.LabelsValue};
ghost use Rattle.sum_engine.specs.check.Verdicts.{CheckState, initial_state, state_at};
ghost use Rattle.sum_engine.specs.declared.check.{judge.Verdict.TheVariants.Right, judge.Verdict.TheVariants.Wrong};
ghost use Rattle.sum_engine.specs.declared.check.{progress.Progress.TheVariants.Ended as EndedCheck};
ghost use Rattle.sum_engine.specs.declared.check.{progress.Progress.TheVariants.Going, rules.CheckRules.CheckRules};
ghost use Rattle.sum_engine.specs.declared.check.judge.LineVerdict.{LineVerdict as LineVerdictOf};
ghost use Rattle.sum_lines.specs.{Escape.escape, grammar.Form.form_of};
ghost use Rattle.sum_lines.specs.grammar.Entries.{EntryValue, IsEntry};
ghost use Rattle.sum_lines.specs.grammar.{ParsedLines.parse_line, Shapes.IsPlain};
ghost use Rattle.sum_lines.specs.sinks.Output.{Gets, output_events};
ghost use Rattle.sum_settings.specs.declared.stop.Stop.{Stop as StopOf};
ghost use Rattle.sum_sources.specs.LineReader.{IsReading, reads_of, remaining_content};
ghost use Rattle.sum_sources.specs.LineReader.{content_past_lines, lines_in};
ghost use Rattle.sum_sources.specs.declared.fault.Ending.TheVariants.{Whole};
ghost use Rattle.sum_sources.specs.declared.inputs.input.Phase.TheVariants.{Ended};
ghost use Rattle.sum_sources.specs.inputs.{Input.Content, Input.Fits, Input.Reads, Input.clip, Stdin.is_untaken};
ghost use Rattle.sum_sources.specs.sources.Source.{Opening, names_of, result_at, times};
ghost use Rattle.sum_sources.specs.sources.{WithStdin.is_dash, WithStdinView.both_state, WithStdinView.stdin_in};
ghost use Rattle.theorems.specs.WritesTexts.{WritesTexts};

use std::alloc::Allocator;
use sum_engine::laws::{events_extend, same_front, steps_join, told_agree};
use sum_engine::{
    CheckSettings, Checker, Inputs, LineVerdict, Progress, Settings, Stop, Streams, Verdicts,
    check_one, generate_one,
};
use sum_lines::Sink;
use sum_sources::laws::stdin_is_taken;
use sum_sources::{Input, LineStop, Source, WithStdin};

/// `generate_one` writes the texts that hashing its name means, and returns whether the file was hashed. Or it stops,
/// and each output got a prefix of its text: a single prefix of what was to happen, the opening of the name with it.
pub fn name_hashed<S: Source, O: Sink, E: Sink>(
    settings: &Settings,
    tool: &str,
    name: &[u8],
    streams: &mut Streams<S, O, E>,
) -> Result<bool, Stop>
    ensures texts { (w : World) → Agrees w streams.new.inputs → let all =
        generate_behavior settings.now tool.now (world_at w streams.old.inputs) name.now in
        WritesTexts all all.good streams.old streams.new result }
    ensures one_prefix { (w : World) → Agrees w streams.new.inputs → let all =
        generate_behavior settings.now tool.now (world_at w streams.old.inputs) name.now in
        PerformsSteps all.steps all.good streams.old streams.new result }
{
    generate_one(settings, tool, name, streams)
}

/// `check_one` writes the texts that checking its manifest means, and returns whether it is good. Or it stops, and each
/// output got a prefix of its text: a single prefix of what was to happen, the openings with it.
pub fn manifest_checked<A: Allocator + Copy, S: Source, O: Sink, E: Sink>(
    alloc: A,
    settings: CheckSettings,
    tool: &str,
    name: &[u8],
    streams: &mut Streams<S, O, E>,
) -> Result<bool, Stop>
    ensures texts { (w : World) → Agrees w streams.new.inputs → let all =
        check_behavior settings tool.now (world_at w streams.old.inputs) name.now in
        WritesTexts all all.good streams.old streams.new result }
    ensures one_prefix { (w : World) → Agrees w streams.new.inputs → let all =
        check_behavior settings tool.now (world_at w streams.old.inputs) name.now in
        PerformsSteps all.steps all.good streams.old streams.new result }
{
    check_one(alloc, settings, tool, name, streams)
}

/// `generate_one` returns true only if it read each file that it opened to its end. Whatever it returns, it read none
/// past its end or its fault, and closed each. Without a stop it opened one name, its own.
pub fn hashed_name_read<S: Source, O: Sink, E: Sink>(
    settings: &Settings,
    tool: &str,
    name: &[u8],
    streams: &mut Streams<S, O, E>,
) -> Result<bool, Stop>
    ensures { (more : List Opening)
        × (streams.new.inputs.openings ≡ streams.old.inputs.openings ++ more)
        × All (ReadsFile (result ≡ Ok true)) more × OnOk result (names_of more ≡ name.now ∷ []) }
{
    let result = generate_one(settings, tool, name, streams);
    told_agree(&streams.inputs);
    result
}

/// `check_one` returns true only if it read each file that it opened to its end. Whatever it returns, it read none past
/// its end or its fault, and closed each. It opened what the check mentions, first the manifest, in this order; after a
/// stop, the first of these.
pub fn good_manifest_read<A: Allocator + Copy, S: Source, O: Sink, E: Sink>(
    alloc: A,
    settings: CheckSettings,
    tool: &str,
    name: &[u8],
    streams: &mut Streams<S, O, E>,
) -> Result<bool, Stop>
    ensures read { (more : List Opening)
        × (streams.new.inputs.openings ≡ streams.old.inputs.openings ++ more)
        × All (ReadsFile (result ≡ Ok true)) more }
    ensures names { (w : World) → Agrees w streams.new.inputs → let all = names_in
        (check_behavior settings tool.now (world_at w streams.old.inputs) name.now) in
        OnOk result (opened_names streams.new.inputs ≡ opened_names streams.old.inputs ++ all)
        × OnErr result ((names later : List ByteString) × (all ≡ names ++ later)
        × (opened_names streams.new.inputs ≡ opened_names streams.old.inputs ++ names)) }
{
    check_one(alloc, settings, tool, name, streams)
}

/// If `generate_one` doesn't stop, standard input is taken afterwards if and only if it was before, or the name is `-`.
pub fn hash_takes_stdin<'a, I: Input + Drop, S: Source, O: Sink, E: Sink>(
    settings: &Settings,
    tool: &str,
    name: &[u8],
    streams: &'a mut Streams<WithStdin<I, S>, O, E>,
) -> (Result<bool, Stop>, &'a WithStdin<I, S>)
    ensures { OnOk result.0 ((is_untaken (stdin_in result.1.now) ≡ false)
        ↔ ((0 < times (codes "-") (opened_names streams.old.inputs)) ⊎ IsTrue (is_dash name.now))) }
{
    let result = generate_one(settings, tool, name, streams);
    told_agree(&streams.inputs);
    let inputs = &streams.inputs.source;
    stdin_is_taken(inputs);
    (result, inputs)
}

/// If `check_one` doesn't stop, standard input is taken afterwards if and only if it was before, or `-` is among the
/// names that the check opens: that of the manifest, and those of its lines.
pub fn check_takes_stdin<'a, A: Allocator + Copy, I: Input + Drop, S: Source, O: Sink, E: Sink>(
    alloc: A,
    settings: CheckSettings,
    tool: &str,
    name: &[u8],
    streams: &'a mut Streams<WithStdin<I, S>, O, E>,
) -> (Result<bool, Stop>, &'a WithStdin<I, S>)
    ensures { (w : World) → Agrees w (both_state result.1.now) → let all =
        check_behavior settings tool.now (world_at w streams.old.inputs) name.now in
        OnOk result.0 ((is_untaken (stdin_in result.1.now) ≡ false)
        ↔ ((0 < times (codes "-") (opened_names streams.old.inputs))
        ⊎ (0 < times (codes "-") (names_in all)))) }
{
    let result = check_one(alloc, settings, tool, name, streams);
    let inputs = &streams.inputs.source;
    stdin_is_taken(inputs);
    (result, inputs)
}

/// After a stop of `check_one`, there is a line before which all steps happened and at which a step can have stopped
/// so, and at most 8,192 bytes of the manifest past it were read.
pub fn stopped_near_line<A: Allocator + Copy, S: Source, O: Sink, E: Sink>(
    alloc: A,
    settings: CheckSettings,
    tool: &str,
    name: &[u8],
    streams: &mut Streams<S, O, E>,
) -> Result<bool, Stop>
    ensures { (stop : StopOf) → result ≡ Err stop → (w : World) → Agrees w streams.new.inputs
        → let at = world_at w streams.old.inputs in (content : Content)
        → answer_to at name.now ≡ Ok content → (reads : Reads) → result_at streams.new.inputs.openings name.now
        (times name.now (opened_names streams.old.inputs)) ≡ Some (Ok reads)
        → (done : List Step) × (next : Step) × (later : List Step) × (between : StreamsState)
        × ((check_behavior settings tool.now at name.now).steps ≡ done ++ next ∷ later)
        × Happened streams.old between (trace done)
        × PerformsSteps {A = ⊤} (next ∷ []) tt between streams.new (Err stop)
        × (length reads.bytes + remaining_before later ≤ length (clip content).bytes + PIECE) }
{
    check_one(alloc, settings, tool, name, streams)
}

/// `Checker::step` performs the first step of those that remained: for each content that fits what was read of the
/// manifest, in each world that agrees. It returns that more follow, or whether the manifest is good.
pub fn step_performed<A: Allocator, I: Input, S: Source, O: Sink, E: Sink>(
    checker: &mut Checker<I>,
    line: &mut Vec<u8, A>,
    streams: &mut Streams<S, O, E>,
) -> Result<Progress, Stop>
    requires going { checker.old.outcome ≡ None }
    requires reading { IsReading I.state checker.old.verdicts.reader }
    ensures { (content : Content) → Fits (reads_of I.state checker.new.verdicts.reader) content
        → (w : World) → Agrees w streams.new.inputs → let old = checker.old.verdicts in
        (step : Step) × (later : Behavior) × (remaining_behavior old.rules checker.old.labels
        (state_at old (remaining_content old.reader content) (world_at w streams.old.inputs))
        ≡ behavior_from step later)
        × PerformsSteps (step ∷ []) (progress_before later.steps later.good) streams.old streams.new result }
{
    checker.step(line, streams)
}

/// A step that returns `Going` has handled one verdict: it opened the name of its line, unless the line is ignored or
/// bad, counted the verdict, and wrote its report.
pub fn line_reported<A: Allocator, I: Input, S: Source, O: Sink, E: Sink>(
    checker: &mut Checker<I>,
    line: &mut Vec<u8, A>,
    streams: &mut Streams<S, O, E>,
) -> Result<Progress, Stop>
    requires { checker.old.outcome ≡ None }
    ensures { result ≡ Ok Going → (found : LineVerdictValue)
        × OpensNames streams.old.inputs streams.new.inputs (names_in_line found)
        × (checker.new.verdicts.counts ≡ counts_and_line checker.old.verdicts.counts found.verdict)
        × Gets streams.old.outputs.err streams.new.outputs.err
        (output_events (err_of checker.old.verdicts.rules checker.old.labels found))
        × Gets streams.old.outputs.out streams.new.outputs.out
        (output_events (out_of checker.old.labels found)) }
{
    checker.step(line, streams)
}

/// A step returns that the manifest is good only if the manifest was read to its end, and no listed file is unread.
pub fn good_at_end<A: Allocator, I: Input, S: Source, O: Sink, E: Sink>(
    checker: &mut Checker<I>,
    line: &mut Vec<u8, A>,
    streams: &mut Streams<S, O, E>,
) -> Result<Progress, Stop>
    requires going { checker.old.outcome ≡ None }
    requires reading { IsReading I.state checker.old.verdicts.reader }
    ensures end { result ≡ Ok (EndedCheck true)
        → (I.state checker.new.verdicts.reader.input).reads.phase ≡ Ended Whole }
    ensures unread { result ≡ Ok (EndedCheck true) → checker.new.verdicts.counts.unread ≡ 0 }
{
    checker.step(line, streams)
}

/// A step reads what it opens to the end, unless it counts one more file as unread.
pub fn step_read<A: Allocator, I: Input, S: Source, O: Sink, E: Sink>(
    checker: &mut Checker<I>,
    line: &mut Vec<u8, A>,
    streams: &mut Streams<S, O, E>,
) -> Result<Progress, Stop>
    requires { checker.old.outcome ≡ None }
    ensures { (more : List Opening)
        × (streams.new.inputs.openings ≡ streams.old.inputs.openings ++ more)
        × All (ReadsFile (checker.new.verdicts.counts.unread ≡ checker.old.verdicts.counts.unread)) more }
{
    checker.step(line, streams)
}

/// The verdicts `Right` and `Wrong` are returned only if one name was opened, that of the line, and each file that was
/// opened was read to its end.
pub fn judged_file_read<A: Allocator, I: Input, S: Source>(
    verdicts: &mut Verdicts<I>,
    line: &mut Vec<u8, A>,
    inputs: &mut Inputs<S>,
) -> Result<Option<LineVerdict>, LineStop>
    requires { verdicts.old.outcome ≡ None }
    ensures { (found : LineVerdictOf) → result ≡ Ok (Some found)
        → (found.verdict ≡ Right) ⊎ (found.verdict ≡ Wrong) → (more : List Opening)
        × (inputs.new.openings ≡ inputs.old.openings ++ more) × All (ReadsFile ⊤) more
        × (names_of more ≡ (line_verdict_value line.new.items found).name ∷ []) }
{
    verdicts.next(line, inputs)
}

/// After k steps of a checker that each handled a line, k fewer lines remain. Each output has grown by the reports of
/// the first k lines, and their names were opened. At most 8,192 bytes past line k were read, and no vector holds more
/// bytes than its line.
pub fn steps_so_far()
    ensures { (rules : CheckRules) (labels : LabelsValue) (content : Content) (world : World)
        (state : CheckState) (before after : StreamsState) (vectors : List ByteString)
        → TakesSteps rules labels (initial_state content world) state before after vectors
        → let all = content_behavior rules labels content (all_verdicts rules world content) in
        let steps = take (length vectors) all.steps in
        (length vectors + length (lines_in state.remaining) ≡ length (lines_in content))
        × (opened_names after.inputs ≡ opened_names before.inputs ++ flat_map (λ step. step.names) steps)
        × (after.outputs.err.written ≡ before.outputs.err.written ++ flat_map (λ step. step.err) steps)
        × (after.outputs.out.written ≡ before.outputs.out.written ++ flat_map (λ step. step.out) steps)
        × (state.taken + length (content_past_lines (length vectors) content).bytes ≤ length content.bytes + PIECE)
        × ((i : ℕ) → length (slice_index_or vectors i []) ≤ length (slice_index_or (lines_in content) i [])) }
{
    steps_join();
    events_extend();
}

/// The step that ends a check comes after one for each line. With it, the check has done exactly what the manifest
/// means; if a step stops, a prefix of it.
pub fn last_step()
    ensures ended { (rules : CheckRules) (labels : LabelsValue) (content : Content) (world : World)
        (state new : CheckState) (before after end : StreamsState) (vectors : List ByteString)
        (vector : ByteString) (good : Bool)
        → TakesSteps rules labels (initial_state content world) state before after vectors
        → IsStep rules labels vector state new after end (Ok (EndedCheck good))
        → let all = content_behavior rules labels content (all_verdicts rules world content) in
        (length vectors ≡ length (lines_in content)) × (good ≡ all.good) × Happened before end (trace all.steps) }
    ensures stopped { (rules : CheckRules) (labels : LabelsValue) (content : Content) (world : World)
        (state new : CheckState) (before after end : StreamsState) (vectors : List ByteString)
        (vector : ByteString) (stop : StopOf)
        → TakesSteps rules labels (initial_state content world) state before after vectors
        → IsStep rules labels vector state new after end (Err stop)
        → let all = content_behavior rules labels content (all_verdicts rules world content) in
        PerformsSteps all.steps all.good before end (Err stop) }
{
    steps_join();
}

/// What a line spells doesn't depend on later lines, nor do the verdicts up to that line, after the same openings; nor
/// does the form, if the line is plain.
pub fn later_lines_change_nothing()
    ensures verdicts { (rules : CheckRules) (world : World) (before : List ByteString)
        (line : ByteString) (later others : List ByteString)
        → let all = before ++ line ∷ later in let instead = before ++ line ∷ others in
        take (length before + 1)
        (verdicts_of rules world 0 (map (parse_line rules.algo (form_of rules.algo all)) all))
        ≡ take (length before + 1)
        (verdicts_of rules world 0 (map (parse_line rules.algo (form_of rules.algo instead)) instead)) }
    ensures entry { (rules : CheckRules) (before : List ByteString) (line : ByteString)
        (later others : List ByteString) (listed : EntryValue)
        → IsEntry escape rules.algo (form_of rules.algo (before ++ line ∷ later)) line listed
        ↔ IsEntry escape rules.algo (form_of rules.algo (before ++ line ∷ others)) line listed }
    ensures form { (rules : CheckRules) (before : List ByteString) (line : ByteString)
        (later others : List ByteString) (escaped : Bool) (kind : KindValue)
        (digest tail : ByteString) → IsPlain rules.algo line escaped kind digest tail
        → form_of rules.algo (before ++ line ∷ later) ≡ form_of rules.algo (before ++ line ∷ others) }
{
    same_front();
}
