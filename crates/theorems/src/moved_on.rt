//! The specification moved on: `anysum` came to the tools, and a carriage return or an empty line in a manifest means
//! something else than to older versions. What older versions made of a manifest, and what is made of it now.
ghost use Rattle.digest_kinds.specs.{Algo.has_len, Bytes.ByteString, Kind.KindValue};
ghost use Rattle.digest_kinds.specs.declared.algo.{Algos.Algos, Algos.TheVariants.Any, Algos.TheVariants.One};
ghost use Rattle.digests.specs.ToolRun.{meaning, status_of};
ghost use Rattle.hex.specs.Hex.{decode_of};
ghost use Rattle.std.specs.Prelude.{◌≡◌, ◌↔◌, ◌++◌, ◌∷◌, [], true, List, IsTrue, Ok, codes, length};
ghost use Rattle.sum_engine.specs.{Behavior.World, Behavior.err_text, Behavior.out_text, Execution.Performs};
ghost use Rattle.sum_engine.specs.Laws.{ContentSaidOnce, HasNoCarriageReturn, IsOldManifest, SaidOnce};
ghost use Rattle.sum_engine.specs.Laws.{older_behavior, older_escape};
ghost use Rattle.sum_engine.specs.check.{CheckOne.content_behavior, Judge.all_verdicts, Judge.parsed_content};
ghost use Rattle.sum_engine.specs.check.{Judge.verdicts_of, Rules.LabelsValue};
ghost use Rattle.sum_engine.specs.declared.check.judge.Verdict.TheVariants.{Bad, Right, Unread, Wrong};
ghost use Rattle.sum_engine.specs.declared.check.rules.CheckRules.{CheckRules};
ghost use Rattle.sum_lines.specs.declared.reading.read_line.Form.{Form, TheVariants.Reversed, TheVariants.Standard};
ghost use Rattle.sum_lines.specs.{Escape.escape, grammar.Entries.EntryValue, grammar.Form.form_of};
ghost use Rattle.sum_lines.specs.grammar.ParsedLines.{ParsedLine, bad, entry, ignored, parse_line};
ghost use Rattle.sum_settings.specs.declared.settings.Report.TheVariants.{All, Warn};
ghost use Rattle.sum_sources.specs.declared.fault.Ending.TheVariants.{Broken, Whole};
ghost use Rattle.sum_sources.specs.declared.fault.Fault.TheVariants.{Denied, NotFound, Other};
ghost use Rattle.sum_sources.specs.inputs.Input.{Content};
ghost use Rattle.sum_sources.specs.LineReader.{lines_in, raw_lines};
ghost use Rattle.sum_words.specs.declared.tool.Tool.TheVariants.{Anysum};

use digests::run;
use std::alloc::Allocator;
use sum_engine::laws::old_verdicts;
use sum_engine::{Stop, Streams};
use sum_lines::Sink;
use sum_sources::Source;
use sum_words::{Tool, Words};

/// A manifest without an empty line and without a carriage return has the verdicts that it had, after the same
/// openings. The same is written for each of its lines and at its end, and it is good if and only if it was. A carriage
/// return counts in the manifest's own name, as a byte, and as the escape `\r` in a name after a leading backslash.
pub fn old_manifests_stay()
    ensures verdicts { (rules : CheckRules) (labels : LabelsValue) (world : World) (content : Content)
        (said : List ParsedLine) → IsOldManifest rules labels content → ContentSaidOnce rules.algo content said
        → verdicts_of rules world 0 said ≡ all_verdicts rules world content }
    ensures steps { (rules : CheckRules) (labels : LabelsValue) (world : World) (content : Content)
        (said : List ParsedLine) → IsOldManifest rules labels content → ContentSaidOnce rules.algo content said
        → (older_behavior rules labels content (verdicts_of rules world 0 said)).steps
        ≡ (content_behavior rules labels content (all_verdicts rules world content)).steps }
    ensures good { (rules : CheckRules) (labels : LabelsValue) (world : World) (content : Content)
        (said : List ParsedLine) → IsOldManifest rules labels content → ContentSaidOnce rules.algo content said
        → (older_behavior rules labels content (verdicts_of rules world 0 said)).good
        ≡ (content_behavior rules labels content (all_verdicts rules world content)).good }
{
    old_verdicts();
}

/// To older versions the lines of such a manifest said what they say now, and nothing else.
pub fn old_lines_say_the_same()
    ensures { (rules : CheckRules) (labels : LabelsValue) (content : Content) (said : List ParsedLine)
        → IsOldManifest rules labels content
        → ContentSaidOnce rules.algo content said ↔ (said ≡ parsed_content rules.algo content) }
{
    old_verdicts();
}

/// There are such manifests: one is a line of digits of a right length, two spaces and the name `a`, whose form is
/// `Standard`; another has a single space, and its form is `Reversed`. Both say that `a` has the digits' digest.
pub fn old_manifests_exist()
    ensures standard { (rules : CheckRules) (labels : LabelsValue) (kind : KindValue) (digits digest : ByteString)
        → rules.algo ≡ One kind.algo → IsTrue (has_len kind.algo kind.len) → length digest ≡ kind.len
        → decode_of digits ≡ Ok digest → HasNoCarriageReturn labels.manifest
        → let content : Content = record { bytes = digits ++ codes "  a\n"; ending = Whole } in
        let listed : EntryValue = record { kind = kind; digest = digest; name = codes "a" } in
        IsOldManifest rules labels content × (form_of rules.algo (lines_in content) ≡ Standard)
        × (parsed_content rules.algo content ≡ entry listed ∷ []) }
    ensures reversed { (rules : CheckRules) (labels : LabelsValue) (kind : KindValue) (digits digest : ByteString)
        → rules.algo ≡ One kind.algo → IsTrue (has_len kind.algo kind.len) → length digest ≡ kind.len
        → decode_of digits ≡ Ok digest → HasNoCarriageReturn labels.manifest
        → let content : Content = record { bytes = digits ++ codes " a\n"; ending = Whole } in
        let listed : EntryValue = record { kind = kind; digest = digest; name = codes "a" } in
        IsOldManifest rules labels content × (form_of rules.algo (lines_in content) ≡ Reversed)
        × (parsed_content rules.algo content ≡ entry listed ∷ []) }
{}

/// Older versions took an empty line for improperly formatted. By an example each: they escaped no carriage return in a
/// name, and kept one at a line's end.
pub fn older_versions_differ()
    ensures escape { older_escape (codes "\r") ≡ codes "\r" }
    ensures line { raw_lines (record { bytes = codes "a\r\n"; ending = Whole }) ≡ codes "a\r" ∷ [] }
    ensures empty { (algos : Algos) (form : Form) (said : ParsedLine)
        → SaidOnce algos form [] said ↔ (said ≡ bad) }
{
    old_verdicts();
}

/// Older versions wrote the name that is a carriage return as it was: in the reports of lines on standard output and on
/// standard error, and at the end of the manifest with that name.
pub fn older_texts()
    ensures out { (rules : CheckRules) (content : Content) → let cr = codes "\r" in
        let labels : LabelsValue = record { tool = codes "md5sum"; manifest = cr; report = All } in
        out_text (older_behavior rules labels content (record { number = 1; verdict = Right; name = cr }
        ∷ record { number = 2; verdict = Wrong; name = cr }
        ∷ record { number = 3; verdict = Unread NotFound; name = cr } ∷ []))
        ≡ codes "\r: OK\n\r: FAILED\n\r: FAILED open or read\n" }
    ensures unread { (rules : CheckRules) → rules.ignore_missing ≡ true → let cr = codes "\r" in
        let labels : LabelsValue = record { tool = codes "md5sum"; manifest = cr; report = All } in
        let content : Content = record { bytes = []; ending = Whole } in
        err_text (older_behavior rules labels content (record { number = 1; verdict = Unread Denied; name = cr } ∷ []))
        ≡ codes "md5sum: \r: Permission denied\n"
        ++ (codes "md5sum: WARNING: 1 listed file could not be read\n"
        ++ codes "md5sum: \r: no file was verified\n") }
    ensures bad { (rules : CheckRules) → rules.algo ≡ Any → let cr = codes "\r" in
        let labels : LabelsValue = record { tool = codes "anysum"; manifest = cr; report = Warn } in
        let content : Content = record { bytes = []; ending = Whole } in
        err_text (older_behavior rules labels content (record { number = 1; verdict = Bad; name = [] } ∷ []))
        ≡ codes "anysum: \r: 1: improperly formatted tagged checksum line\n"
        ++ codes "anysum: \r: no properly formatted checksum lines found\n" }
    ensures broken { (rules : CheckRules) → let cr = codes "\r" in
        let labels : LabelsValue = record { tool = codes "md5sum"; manifest = cr; report = All } in
        let content : Content = record { bytes = []; ending = Broken Other } in
        err_text (older_behavior rules labels content []) ≡ codes "md5sum: \r: Input/output error\n" }
{}

/// Now an empty line is ignored. By an example each: a carriage return in a name is escaped as `\r`, and one at a
/// line's end is dropped.
pub fn the_profile_is_2()
    ensures escape { escape (codes "\r") ≡ codes "\\r" }
    ensures line { lines_in (record { bytes = codes "a\r\n"; ending = Whole }) ≡ codes "a" ∷ [] }
    ensures empty { (algos : Algos) (form : Form) → parse_line algos form [] ≡ ignored }
{
    old_verdicts();
}

/// `anysum` is one of the tools: `run` performs what its words mean, as for any other.
pub fn anysum_runs<A: Allocator + Copy, S: Source, O: Sink, E: Sink>(
    alloc: A,
    words: &Words<A>,
    streams: &mut Streams<S, O, E>,
) -> Result<u8, Stop>
    ensures { Performs (meaning Anysum words.now) status_of streams.old streams.new result }
{
    run(alloc, Tool::Anysum, words, streams)
}
