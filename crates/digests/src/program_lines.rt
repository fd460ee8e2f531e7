//! The lines of the program itself: for a stop, for an unknown tool, and for words that could not be read.
ghost use Rattle.digests.specs.Program.{stop_line, unknown_tool_line, not_read_line};
ghost use Rattle.std.specs.Prelude.{◌≡◌, ◌++◌, Some};
ghost use Rattle.sum_lines.specs.{sinks.Buffered.WritesAll, writing.Parts.part_text};
ghost use Rattle.sum_words.specs.{Tool.name_of, declared.tool.Tool.Tool};

use sum_engine::Stop;
use sum_lines::{Buffered, Part, Sink, SinkFault, put_all, put_parts};
use sum_words::Tool;

/// Writes the line for an unknown or missing tool to the buffer.
pub fn put_unknown<E: Sink>(err: &mut Buffered<E>) -> Result<(), SinkFault>
    ensures text { WritesAll err.old err.new unknown_tool_line result }
{
    put_all(err, b"digests: unknown tool\n")
}

/// Writes the line for words that could not be read to the buffer.
pub fn put_not_read<E: Sink>(err: &mut Buffered<E>) -> Result<(), SinkFault>
    ensures text { WritesAll err.old err.new not_read_line result }
{
    put_all(err, b"digests: words not read\n")
}

/// Writes the line for a stop of a tool's run to the buffer.
pub fn put_stop<E: Sink>(err: &mut Buffered<E>, tool: Tool, stop: Stop) -> Result<(), SinkFault>
    ensures text { WritesAll err.old err.new (stop_line (Some tool) stop) result }
{
    let name = Part::Bytes(tool.name().as_bytes());
    put_parts(err, &[name, after_name(stop)])
}

// What follows the tool's name in the line for a stop: the texts of `Stop`'s `Display`.
fn after_name(stop: Stop) -> Part<'static>
    ensures { (tool : Tool) → name_of tool ++ part_text result ≡ stop_line (Some tool) stop }
{
    match stop {
        Stop::Memory => Part::Bytes(b": memory exhausted\n"),
        Stop::Write => Part::Bytes(b": write error\n"),
    }
}
