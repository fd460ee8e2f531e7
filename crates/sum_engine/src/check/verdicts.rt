//! The verdicts of a manifest, without any text.
ghost use Rattle.digest_kinds.specs.Bytes.{LIMIT};
ghost use Rattle.std.specs.Prelude.{◌≡◌, ◌≢◌, ◌≤◌, ◌<◌, ◌&&◌, [], None, IfOk, IfSome, MatchResult};
ghost use Rattle.sum_engine.specs.check.{Counts.counts_and_line, Counts.total, Rules.rules_of};

use crate::check::counts::{Counts, is_good};
use crate::check::judge::{LineVerdict, ListedEntry, Verdict, judge};
use crate::check::rules::CheckRules;
use crate::inputs::Inputs;
use std::alloc::Allocator;
use std::marker::Model;
use sum_lines::{Form, Reading, is_ignored, read_line};
use sum_settings::CheckSettings;
use sum_sources::{Input, LineReader, LineStop, Next, NoRoom, Source};

/// The verdicts of a manifest's lines, one at a time, for a program that shows them in its own way. Nothing is written.
#[derive(Debug, Drop)]
pub struct Verdicts<I> {
    rules: CheckRules,
    reader: LineReader<I>,
    form: Form,
    counts: Counts,
    // That no line is left, or why the verdicts stopped: every later call returns it again.
    outcome: Option<Result<(), LineStop>>,
}

impl<I> Model for Verdicts<I> {
    ghost use Rattle.digest_kinds.specs.Bytes.{LIMIT};
    ghost use Rattle.std.specs.Prelude.{◌≡◌, ◌≤◌};
    ghost use Rattle.sum_engine.specs.check.{Counts.total, Verdicts.VerdictsValue};

    ghost Value = { VerdictsValue I };

    ghost view = { λ v. record {
      rules = v.rules;
      reader = v.reader;
      form = v.form;
      counts = v.counts;
      outcome = v.outcome;
    } };

    ghost invariant = { λ v. (total v.counts ≤ v.reader.lines) × (v.reader.lines ≤ LIMIT) };
}

impl<I: Input> Verdicts<I> {
    ghost use Rattle.sum_engine.specs.Behavior.{World};
    ghost use Rattle.sum_engine.specs.Execution.{Agrees, OpensNames, ReadsToEndIf, RefusesMemory, world_at};
    ghost use Rattle.sum_engine.specs.check.Counts.{is_manifest_good};
    ghost use Rattle.sum_engine.specs.check.Judge.{HasNameRange, names_in_line, line_verdict, line_verdict_value};
    ghost use Rattle.sum_engine.specs.check.Verdicts.{AdvancesVerdicts, HoldsInEachCheck, IsAtStart, IsNextVerdict};
    ghost use Rattle.sum_engine.specs.check.Verdicts.{IsNotUnread, KeepsOutcome, is_whole, outcome_in_next};
    ghost use Rattle.sum_engine.specs.private.Verdicts.{TakesLine, found_verdict, parsed_at};
    ghost use Rattle.sum_lines.specs.grammar.Entries.{is_ignored};
    ghost use Rattle.std.specs.Prelude.{false};
    ghost use Rattle.sum_sources.specs.declared.fault.Ending.TheVariants.{Whole};

    /// Creates the verdicts of the manifest that `input` gives, before its first line. `from_stdin` says whether the
    /// manifest came from standard input: a line that names `-` is then improperly formatted. The report setting has no
    /// effect here.
    pub fn new(settings: CheckSettings, from_stdin: bool, input: I) -> Self
        ensures rules { result.rules ≡ rules_of settings from_stdin }
        ensures start { IsAtStart I.state result input }
    {
        Verdicts {
            rules: CheckRules::new(settings, from_stdin),
            reader: LineReader::new(input),
            form: Form::Undecided,
            counts: Counts::NONE,
            outcome: None,
        }
    }

    /// Returns how many bytes the manifest's input has given.
    pub fn taken(&self) -> u64
        ensures value { result ≡ self.now.reader.taken }
        ensures at_most { result ≤ LIMIT }
    {
        self.reader.taken()
    }

    /// Returns the manifest's input, past the bytes that it has given. Bytes that were read ahead of the last line are
    /// lost.
    pub fn into_inner(self) -> I
        ensures input { result ≡ self.reader.input }
    {
        self.reader.into_inner()
    }

    /// Returns whether the manifest is good; false before `next` has returned that no line is left.
    pub fn is_good(&self) -> bool
        ensures value { result ≡ is_whole self.now.outcome && is_manifest_good self.now.rules Whole self.now.counts }
    {
        match self.outcome {
            Some(Ok(())) => is_good(self.rules, self.counts),
            _ => false,
        }
    }

    /// The rules by which its lines are judged.
    pub(crate) fn rules(&self) -> CheckRules
        ensures { result ≡ self.now.rules }
    {
        self.rules
    }

    /// How many of its lines so far have each verdict.
    pub(crate) fn counts(&self) -> Counts
        ensures value { result ≡ self.now.counts }
        ensures at_most { total result ≤ LIMIT }
    {
        self.counts
    }

    /// Reads the next line and returns its verdict, or `None` if no line is left and the manifest ended whole. `line`
    /// grows to hold the line, and then contains the name of its entry, at the range in the result. Its earlier content
    /// doesn't matter. Files are opened through `inputs`. In a manifest that didn't come from standard input, the name
    /// `-` is opened there as any other.
    ///
    /// Returns `LineStop::Fault` if that fault broke the manifest, and `LineStop::Memory` only if the source was
    /// refused memory, or bytes of the manifest were still to come. After either, and after `None`, each call returns
    /// the same and changes nothing but possibly `line`.
    pub fn next<A: Allocator, S: Source>(
        &mut self,
        line: &mut Vec<u8, A>,
        inputs: &mut Inputs<S>,
    ) -> Result<Option<LineVerdict>, LineStop>
        // An outcome is returned again; everything but `line` is unchanged.
        ensures outcome { KeepsOutcome outcome_in_next self.old.outcome self.new.outcome
            ((self.new ≡ self.old) × (inputs.new ≡ inputs.old)) result }
        // For every content and in every world that agree with what was read: the first of the verdicts that remained.
        ensures verdict { self.old.outcome ≡ None
            → HoldsInEachCheck I.state self.old self.new inputs.old inputs.new
            (λ a b. IsNextVerdict self.old.rules line.new.items
            (RefusesMemory inputs.old inputs.new) a b result) }
        ensures name_range { IfOk result
            (λ found. IfSome found (λ v. HasNameRange line.new.items v)) }
        // What was opened, the lines counted, and the cause of a stop.
        ensures advances { self.old.outcome ≡ None
            → AdvancesVerdicts I.state line.new.items self.old self.new
            inputs.old inputs.new result }
    {
        match self.outcome {
            None => {}
            Some(Ok(())) => return Ok(None),
            Some(Err(stop)) => return Err(stop),
        }
        match self.reader.next_line(line) {
            Ok(Next::Line) => {}
            Ok(Next::NoMore) => {
                self.outcome = Some(Ok(()));
                return Ok(None);
            }
            Err(stop) => {
                self.outcome = Some(Err(stop));
                return Err(stop);
            }
        }
        // Here, since `judge_line` clears stack space for an entry.
        if is_ignored(line) {
            return Ok(Some(self.count_verdict(Verdict::Ignored, 0, 0)));
        }
        match self.judge_line(line, inputs) {
            Ok(found) => Ok(Some(found)),
            Err(no_room) => {
                let stop = LineStop::from(no_room);
                self.outcome = Some(Err(stop));
                Err(stop)
            }
        }
    }

    // The verdict of the line that was read last, which isn't ignored. It is counted. Returns `NoRoom` if the source is
    // out of memory.
    fn judge_line<A: Allocator, S: Source>(
        &mut self,
        line: &mut Vec<u8, A>,
        inputs: &mut Inputs<S>,
    ) -> Result<LineVerdict, NoRoom>
        requires few { total self.old.counts < self.old.reader.lines }
        requires other { is_ignored line.old.items ≡ false }
        ensures verdict { (w : World) → Agrees w inputs.new
            → let is = line_verdict self.old.rules (world_at w inputs.old) self.old.reader.lines
            (parsed_at self.old line.old.items) in
            MatchResult result (λ v. line_verdict_value line.new.items v ≡ is)
            (λ _. names_in_line is ≢ []) }
        // What was opened and read, and that the line was counted.
        ensures opened { MatchResult result
            (λ v. OpensNames inputs.old inputs.new (names_in_line (line_verdict_value line.new.items v)))
            (λ _. RefusesMemory inputs.old inputs.new) }
        ensures takes { TakesLine self.old self.new line.old.items line.new.items result }
        ensures reads { ReadsToEndIf (IsNotUnread (found_verdict result)) inputs.old inputs.new }
    {
        let (reading, form) = read_line(self.rules.algo, self.form, line);
        self.form = form;
        match reading {
            // No line here is ignored: `next` has counted these.
            Reading::Ignored | Reading::Bad => Ok(self.count_verdict(Verdict::Bad, 0, 0)),
            Reading::Entry {
                kind,
                digest,
                start,
                stop,
            } => {
                let listed = ListedEntry {
                    kind,
                    digest: &digest,
                    name: &line[start..stop],
                };
                let verdict = judge(self.rules, &listed, inputs)?;
                Ok(self.count_verdict(verdict, start, stop))
            }
        }
    }

    // Counts the verdict of the line that was read last, whose name is at this range.
    #[tactic(auto, using(crate::proofs::CountLemmas::total_with))]
    fn count_verdict(&mut self, verdict: Verdict, start: usize, stop: usize) -> LineVerdict
        requires few { total self.old.counts < self.old.reader.lines }
        ensures is { result
            ≡ record {
              number = self.old.reader.lines;
              verdict = verdict;
              start = start;
              stop = stop;
            } }
        ensures counts { self.new
            ≡ record self.old { counts = counts_and_line self.old.counts verdict } }
    {
        self.counts = self.counts.with(verdict);
        LineVerdict {
            number: self.reader.lines(),
            verdict,
            start,
            stop,
        }
    }
}
