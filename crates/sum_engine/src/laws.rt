//! Laws about what was read, and about whole checks: what the steps of a [`Checker`](crate::Checker) and the calls of
//! [`Verdicts`](crate::Verdicts) do together.
ghost use Rattle.digest_kinds.specs.Bytes.{ByteString};
ghost use Rattle.std.specs.Prelude.{◌≡◌, ◌∷◌, ◌++◌, [], List, None, Some, Ok};
ghost use Rattle.sum_engine.specs.{Behavior.World, Execution.Agrees, Execution.world_at};
ghost use Rattle.sum_engine.specs.Laws.{AreFirstOf, HasReturned, ReturnsNext};
ghost use Rattle.sum_engine.specs.Laws.{EventsExtend, SameFront, StepsJoin, ToldAgree};
ghost use Rattle.sum_engine.specs.Laws.{OldVerdicts, OlderDiffers};
ghost use Rattle.sum_engine.specs.check.Judge.{LineVerdict, LineVerdictValue, all_verdicts, line_verdict_value};
ghost use Rattle.sum_engine.specs.check.Verdicts.{IsAtStart, VerdictResult, VerdictsValue};
ghost use Rattle.sum_sources.specs.{LineReader.reads_of, declared.inputs.input.Phase.TheVariants.Unfinished};
ghost use Rattle.sum_sources.specs.{inputs.Input.Content, inputs.Input.Fits, inputs.Input.clip};
ghost use Rattle.sum_sources.specs.sources.Source.{SourceState};

use crate::inputs::Inputs;
use sum_sources::{Input, Source};

/// Some world agrees with all that was read so far, and has each answer that the source tells.
pub fn told_agree<S: Source>(inputs: &Inputs<S>)
    ensures world { ToldAgree S.tells inputs.now }
{
    // This read lets the proof see the source.
    let _source = &inputs.source;
}

/// After k calls of `step` that each handled a line, exactly the first k steps of the manifest's behavior happened: the
/// names of the first k lines were opened, and their reports were written. The input gave at most 8,192 bytes beyond
/// the end of line k, and each line's vector held at most as many bytes as its line. If the next call ends or stops,
/// the manifest's whole behavior was performed. So the call that ends writes exactly the summary or the fault line, and
/// it comes after all lines.
pub fn steps_join()
    ensures steps { StepsJoin }
{}

/// After k calls of `Verdicts::next` that each returned a line, their verdicts are the first k of the manifest's, for
/// each content that fits what was read of it, in each world that agrees with what was read by the last call. If the
/// next call returns that no line is left, or a fault, they are all. `start` is for a loop's start, `line` for each of
/// its calls, and `end` for the call that ends it.
pub fn verdicts_join<I: Input>()
    ensures start { (verdicts : VerdictsValue I) (source : SourceState) → verdicts.outcome ≡ None
        → HasReturned I.state verdicts verdicts source source [] }
    ensures line { (first old new : VerdictsValue I) (before between after : SourceState)
        (returned : List LineVerdictValue) (vector : ByteString) (found : LineVerdict)
        → HasReturned I.state first old before between returned
        → ReturnsNext I.state vector old new between after (Ok (Some found))
        → HasReturned I.state first new before after (returned ++ line_verdict_value vector found ∷ []) }
    ensures end { (first old new : VerdictsValue I) (before between after : SourceState)
        (returned : List LineVerdictValue) (vector : ByteString) (result : VerdictResult) (input : I)
        → HasReturned I.state first old before between returned
        → ReturnsNext I.state vector old new between after result
        → IsAtStart I.state first input → (I.state input).reads.phase ≡ Unfinished
        → (content : Content) → Fits (reads_of I.state new.reader) content
        → (world : World) → Agrees world after
        → AreFirstOf (all_verdicts first.rules (world_at world before) (clip content))
        (clip content).ending returned vector result }
{}

/// If the trace of a behavior happened, each output grew by the behavior's text for it, and its names were opened.
pub fn events_extend()
    ensures events { EventsExtend }
{}

/// What a line spells doesn't depend on later lines; nor does its verdict after the same openings; nor does the form,
/// if the line is plain. None of these depends on the manifest's name, if both manifests or neither came from standard
/// input.
pub fn same_front()
    ensures front { SameFront }
{}

/// A manifest from the time of older versions is checked as they checked it, if it has no empty line and no carriage
/// return: neither in its own name, nor as a byte, nor as the escape `\r` in a name after a leading backslash. Its
/// lines say the same, and its verdicts after the same openings are the same. The same is written for each line and at
/// the end, and the manifest is good if and only if it was. Older versions of the tools didn't escape carriage returns
/// in names, didn't drop them at a line's end, and found empty lines improperly formatted.
pub fn old_verdicts()
    ensures verdicts { OldVerdicts }
    ensures differs { OlderDiffers }
{}
