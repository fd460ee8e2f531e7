//! The two lines that report a fault of the words.
ghost use Rattle.std.specs.Prelude.{◌≡◌, ◌++◌};
ghost use Rattle.sum_lines.specs.{sinks.Buffered.WritesAll, writing.Parts.part_text};
ghost use Rattle.sum_words.specs.messages.FaultLines.{fault_lines, wording};
ghost use Rattle.sum_words.specs.parsing.WordFault.{WordFaultValue, word_fault_value};

use crate::parsing::options::Spelling;
use crate::parsing::word_fault::WordFault;
use crate::tool::Tool;
use sum_lines::{Buffered, Part, Sink, SinkFault, put_parts};

/// Writes the two lines of a fault to the buffer.
pub fn put_fault<E: Sink>(
    err: &mut Buffered<E>,
    tool: Tool,
    fault: &WordFault<'_>,
) -> Result<(), SinkFault>
    ensures text { WritesAll err.old err.new (fault_lines tool (word_fault_value fault.now)) result }
{
    let mut buffer = [0; 4];
    let (prefix, shown, suffix) = wording(*fault, &mut buffer);
    put_lines(err, tool, prefix, shown, suffix)
}

// Writes the two lines of the fault whose text has these parts.
fn put_lines<'a, E: Sink>(
    err: &mut Buffered<E>,
    tool: Tool,
    prefix: &'a str,
    shown: Part<'a>,
    suffix: &'a str,
) -> Result<(), SinkFault>
    ensures { (value : WordFaultValue) → prefix.now ++ part_text shown.entry ++ suffix.now ≡ wording value →
        WritesAll err.old err.new (fault_lines tool value) result }
{
    let name = Part::Bytes(tool.name().as_bytes());
    let colon = Part::Bytes(b": ");
    let prefix = Part::Bytes(prefix.as_bytes());
    let suffix = Part::Bytes(suffix.as_bytes());
    let hint = Part::Bytes(b"\nTry '");
    let end = Part::Bytes(b" --help' for more information.\n");
    put_parts(err, &[name, colon, prefix, shown, suffix, hint, name, end])
}

// A fault's text: what it shows of the words, between a prefix and a suffix. The buffer is for a letter that it shows.
// A full name needs no escape.
#[rattlefmt::skip]
fn wording<'a>(fault: WordFault<'a>, buffer: &'a mut [u8; 4]) -> (&'static str, Part<'a>, &'static str)
    ensures { result.0.now ++ part_text result.1 ++ result.2.now
        ≡ wording (word_fault_value fault.entry) }
{
    match fault {
        WordFault::UnknownLong(name) => ("unrecognized option '--", Part::Escaped(name.as_bytes()), "'"),
        WordFault::AmbiguousLong(name) => ("option '--", Part::Escaped(name.as_bytes()), "' is ambiguous"),
        WordFault::ValueNotAllowed(name) =>
            ("option '--", Part::Bytes(name.as_bytes()), "' doesn't allow an argument"),
        WordFault::ValueMissing(Spelling::Long) => ("option '--length' requires an argument", NOTHING, ""),
        WordFault::ValueMissing(Spelling::Short) => ("option requires an argument -- 'l'", NOTHING, ""),
        WordFault::UnknownShort(letter) =>
            ("invalid option -- '", Part::Escaped(letter.encode_utf8(buffer).as_bytes()), "'"),
        WordFault::LengthInvalid(value) => ("invalid length: '", Part::Escaped(value), "'"),
        WordFault::LengthNotBytes(value) => ("length is not a multiple of 8: '", Part::Escaped(value), "'"),
        WordFault::TagWithText => ("--tag does not support --text mode", NOTHING, ""),
        WordFault::ZeroWithCheck => ("the --zero option is not supported when verifying checksums", NOTHING, ""),
        WordFault::TagWithCheck => ("the --tag option is meaningless when verifying checksums", NOTHING, ""),
        WordFault::ModeWithCheck =>
            ("the --binary and --text options are meaningless when verifying checksums", NOTHING, ""),
        WordFault::IgnoreWithoutCheck =>
            ("the --ignore-missing option is meaningful only when verifying checksums", NOTHING, ""),
        WordFault::StatusWithoutCheck =>
            ("the --status option is meaningful only when verifying checksums", NOTHING, ""),
        WordFault::WarnWithoutCheck =>
            ("the --warn option is meaningful only when verifying checksums", NOTHING, ""),
        WordFault::QuietWithoutCheck =>
            ("the --quiet option is meaningful only when verifying checksums", NOTHING, ""),
        WordFault::StrictWithoutCheck =>
            ("the --strict option is meaningful only when verifying checksums", NOTHING, ""),
        WordFault::CheckNeeded => ("--check is required", NOTHING, ""),
        WordFault::NotText(word) => ("unrecognized option '", Part::Escaped(word), "'"),
    }
}

const NOTHING: Part<'static> = Part::Bytes(b"");
