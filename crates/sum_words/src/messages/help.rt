//! The help and the version text.
ghost use Rattle.std.specs.Prelude.{◌≡◌, ◌-◌, ◌∷◌, ◌++◌, [], codes, filter, flat_map, if◌then◌else◌, replicate};
ghost use Rattle.std.specs.Str.{byte};
ghost use Rattle.sum_lines.specs.{sinks.Buffered.WritesAll, writing.Parts.part_text};
ghost use Rattle.sum_words.specs.{Tool.algos_of, declared.messages.help.TheConstants.NAME_COLUMNS};
ghost use Rattle.sum_words.specs.messages.Help.{help, help_line, letter_column, purpose, version};
ghost use Rattle.sum_words.specs.parsing.Options.{has_option, row_of, takes_value};

use crate::parsing::options::{Flag, all_flags, has_option};
use crate::tool::Tool;
use digest_kinds::Algos;
use sum_lines::{Buffered, Part, Sink, SinkFault, put_all, put_parts};

/// Writes the help text to the buffer.
pub fn put_help<O: Sink>(out: &mut Buffered<O>, tool: Tool) -> Result<(), SinkFault>
    ensures text { WritesAll out.old out.new (help tool) result }
{
    let usage = Part::Bytes(b"Usage: ");
    let name = Part::Bytes(tool.name().as_bytes());
    let operands = Part::Bytes(b" [OPTION]... [FILE]...\n");
    let (prefix, tag, suffix) = purpose(tool);
    let input = Part::Bytes(b" With no FILE, or when FILE is -, read standard input.\n");
    put_parts(out, &[usage, name, operands, prefix, tag, suffix, input])?;
    put_options(out, tool, all_flags())
}

// What the tool is for: the algorithm's tag, and what precedes and follows it.
fn purpose(tool: Tool) -> (Part<'static>, Part<'static>, Part<'static>)
    ensures { part_text result.0 ++ part_text result.1 ++ part_text result.2
        ≡ purpose (algos_of tool) }
{
    let (prefix, tag, suffix) = match tool.algos() {
        Algos::One(algo) => ("Print or check ", algo.tag(), " checksums."),
        Algos::Any => ("Check checksums of tagged lines.", "", ""),
    };
    (
        Part::Bytes(prefix.as_bytes()),
        Part::Bytes(tag.as_bytes()),
        Part::Bytes(suffix.as_bytes()),
    )
}

// Writes the line of each of these options that the tool has.
#[tactic(auto, using(sum_lines::proofs::SinkLemmas::at_first))]
fn put_options<O: Sink>(out: &mut Buffered<O>, tool: Tool, flags: &[Flag]) -> Result<(), SinkFault>
    ensures { WritesAll out.old out.new
        (flat_map help_line (filter (has_option tool) flags.now)) result }
{
    for flag in flags {
        put_option(out, tool, *flag)?;
    }
    Ok(())
}

// Writes the line of an option, if the tool has it.
fn put_option<O: Sink>(out: &mut Buffered<O>, tool: Tool, flag: Flag) -> Result<(), SinkFault>
    ensures { WritesAll out.old out.new
        (flat_map help_line (filter (has_option tool) (flag ∷ []))) result }
{
    if !has_option(tool, flag) {
        return put_all(out, b"");
    }
    match flag.row().0 {
        Some(letter) => put_row(out, flag, b"  -", &[letter], b", "),
        None => put_row(out, flag, b"      ", b"", b""),
    }
}

// Writes the line of an option: its letter between these bytes, its name in its columns, and its text.
fn put_row<'a, O: Sink>(
    out: &mut Buffered<O>,
    flag: Flag,
    prefix: &'a [u8],
    letter: &'a [u8],
    suffix: &'a [u8],
) -> Result<(), SinkFault>
    requires { prefix.now ++ letter.now ++ suffix.now ≡ letter_column (row_of flag).0 }
    ensures { WritesAll out.old out.new (help_line flag) result }
{
    let (_, name, help) = flag.row();
    let value = value_column(flag);
    let columns = 2 + name.len() + value.len();
    put_parts(
        out,
        &[
            Part::Bytes(prefix),
            Part::Bytes(letter),
            Part::Bytes(suffix),
            Part::Bytes(b"--"),
            Part::Bytes(name.as_bytes()),
            Part::Bytes(value.as_bytes()),
            Part::Bytes(padding(columns)),
            Part::Bytes(help.as_bytes()),
            Part::Bytes(b"\n"),
        ],
    )
}

// The value in the line of an option that takes one.
fn value_column(flag: Flag) -> &'static str
    ensures { result.now ≡ (if takes_value flag then codes "=BITS" else []) }
{
    if flag.takes_value() { "=BITS" } else { "" }
}

// The columns of a name in the help.
const NAME_COLUMNS: usize = 18;

static SPACES: [u8; NAME_COLUMNS] = [b' '; NAME_COLUMNS];

// The spaces that pad a name of this many bytes to its columns.
fn padding(columns: usize) -> &'static [u8]
    ensures { result.now ≡ replicate (NAME_COLUMNS - columns) (byte " ") }
{
    &SPACES[..NAME_COLUMNS.saturating_sub(columns)]
}

/// Writes the version text to the buffer.
pub fn put_version<O: Sink>(out: &mut Buffered<O>, tool: Tool) -> Result<(), SinkFault>
    ensures text { WritesAll out.old out.new (version tool) result }
{
    let name = Part::Bytes(tool.name().as_bytes());
    put_parts(out, &[name, Part::Bytes(b" (digests), profile 2\n")])
}
