//! The lines that begin with the tool and a name.
ghost use Rattle.std.specs.Prelude.{◌≡◌};
ghost use Rattle.sum_engine.specs.ToolLines.{tool_line};
ghost use Rattle.sum_lines.specs.writing.Parts.{joined_text};

use sum_lines::{Buffered, Part, Sink, SinkFault, Text, put_parts};
use sum_sources::Fault;

/// The parts of `TOOL: NAME: TEXT`.
pub(crate) fn tool_line<'a>(tool: &'a str, name: &'a [u8], text: &'a [u8]) -> [Part<'a>; 6]
    ensures { joined_text result ≡ tool_line tool.now name.now text.now }
{
    [
        Part::Bytes(tool.as_bytes()),
        Part::Bytes(b": "),
        Part::Escaped(name),
        Part::Bytes(b": "),
        Part::Bytes(text),
        Part::Bytes(b"\n"),
    ]
}

/// The line for a name that can't be opened or read, with the text of the fault.
#[derive(Clone, Copy)]
pub(crate) struct NameFaultLine<'a> {
    pub tool: &'a str,
    pub name: &'a [u8],
    pub fault: Fault,
}

impl<'a> Text for NameFaultLine<'a> {
    ghost use Rattle.sum_engine.specs.ToolLines.{name_fault_line};

    ghost text = { λ l. name_fault_line l.tool.now l.name.now l.fault };

    fn put<S: Sink>(&self, sink: &mut Buffered<S>) -> Result<(), SinkFault> {
        let line = tool_line(self.tool, self.name, self.fault.text().as_bytes());
        put_parts(sink, &line)
    }
}
