//! Messages: the texts that the program writes besides lines and reports.

use crate::program_lines::{put_not_read, put_stop, put_unknown};
use sum_engine::Stop;
use sum_lines::{Buffered, Sink, SinkFault, Text};
use sum_words::{Tool, WordFault, put_fault, put_help, put_version};

/// A text that doesn't belong to one operand.
#[derive(Clone, Copy)]
pub(crate) enum Message<'a> {
    /// The two lines of a fault in the words.
    Fault(Tool, &'a WordFault<'a>),
    Help(Tool),
    Version(Tool),
    /// The line for an unknown or missing tool.
    UnknownTool,
    /// The line for words that could not be read.
    NotRead,
    /// The line for a stop.
    Stop(Tool, Stop),
}

impl<'a> Text for Message<'a> {
    ghost use Rattle.digests.specs.private.Messages.{message_text};

    ghost text = { message_text };

    fn put<S: Sink>(&self, sink: &mut Buffered<S>) -> Result<(), SinkFault> {
        match *self {
            Message::Fault(tool, fault) => put_fault(sink, tool, fault),
            Message::Help(tool) => put_help(sink, tool),
            Message::Version(tool) => put_version(sink, tool),
            Message::UnknownTool => put_unknown(sink),
            Message::NotRead => put_not_read(sink),
            Message::Stop(tool, stop) => put_stop(sink, tool, stop),
        }
    }
}
