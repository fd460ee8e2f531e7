//! A loop over the verdicts of a manifest.
ghost use Rattle.std.specs.Prelude.{◌≡◌, ◌<◌, ◌≤◌, ◌+◌, ◌^◌, false, IfOk};
ghost use Rattle.sum_engine.specs.{Behavior.World, Execution.Agrees, Execution.world_at};
ghost use Rattle.sum_engine.specs.check.{Counts.counts_and_line, Counts.counts_of};
ghost use Rattle.sum_engine.specs.declared.check.counts.Counts.{Counts};
ghost use Rattle.sum_engine.specs.check.{Judge.all_verdicts, Rules.rules_of, Verdicts.IsAtStart};
ghost use Rattle.sum_sources.specs.inputs.Input.{Content, Fits, clip, empty_reads};

use std::alloc::Allocator;
use sum_engine::laws::verdicts_join;
use sum_engine::{CheckSettings, Inputs, Verdict, Verdicts};
use sum_sources::laws::all_reads;
use sum_sources::{Input, LineStop, Source};

/// Counts the lines of an unread manifest that have the verdict `Wrong`. Returns the manifest, too, to be closed.
pub fn count_wrong<A: Allocator, I: Input, S: Source>(
    settings: CheckSettings,
    manifest: I,
    line: &mut Vec<u8, A>,
    inputs: &mut Inputs<S>,
) -> (Result<u64, LineStop>, I)
    requires { (I.state manifest).reads ≡ empty_reads }
    // For each content that fits what was read of the manifest, in each world that agrees with what was read.
    ensures { (content : Content) → Fits (I.state result.1).reads content
        → (world : World) → Agrees world inputs.new → IfOk result.0 (λ count. count
        ≡ (counts_of (all_verdicts (rules_of settings false) (world_at world inputs.old) (clip content))).wrong) }
{
    count_lines(Verdicts::new(settings, false, manifest), line, inputs)
}

// Counts these lines from the first on.
fn count_lines<A: Allocator, I: Input, S: Source>(
    mut verdicts: Verdicts<I>,
    line: &mut Vec<u8, A>,
    inputs: &mut Inputs<S>,
) -> (Result<u64, LineStop>, I)
    requires start { IsAtStart I.state verdicts verdicts.reader.input }
    requires unread { (I.state verdicts.reader.input).reads ≡ empty_reads }
    ensures { (content : Content) → Fits (I.state result.1).reads content
        → (world : World) → Agrees world inputs.new → IfOk result.0 (λ count. count
        ≡ (counts_of (all_verdicts verdicts.rules (world_at world inputs.old) (clip content))).wrong) }
{
    verdicts_join::<I>();
    all_reads::<I>();
    let mut count = 0;
    let result = 'lines: loop {
        match verdicts.next(line, inputs) {
            Ok(Some(found)) => count = with_verdict(count, found.verdict),
            Ok(None) => break Ok(count),
            Err(stop) => break Err(stop),
        }
    };
    (result, verdicts.into_inner())
}

// The count with one more line of this verdict.
fn with_verdict(count: u64, verdict: Verdict) -> u64
    requires { count < 2 ^ 61 }
    ensures value { (counts : Counts) → counts.wrong ≡ count
        → (counts_and_line counts verdict).wrong ≡ result }
    ensures at_most { result ≤ count + 1 }
{
    match verdict {
        Verdict::Wrong => count + 1,
        _ => count,
    }
}
