//! The log of a source.
ghost use Rattle.std.specs.Prelude.{◌≡◌};
ghost use Rattle.sum_sources.specs.sources.Source.{opened_file};
ghost use Rattle.sum_sources.specs.sources.SourceLog.{no_answer};

use crate::inputs::input_log::{InputCalls, InputLog};
use crate::{Fault, Input, Source};
use ghost_log::{Log, Notes};
use std::marker::Model;

/// A source before its first opening, with which its log begins.
#[derive(Debug, Drop)]
pub struct SourceCalls;

impl Model for SourceCalls {
    ghost use Rattle.sum_sources.specs.sources.Source.{SourceState};

    ghost Value = { SourceState };

    ghost use Rattle.sum_sources.specs.sources.SourceLog.{no_openings};

    ghost view = { λ _. no_openings };
}

/// Which names a source opened, and what it answered. Only proofs see it.
pub type SourceLog = Log<SourceCalls>;

/// A note in the log of a source.
#[derive(Clone, Copy, Debug)]
pub enum Note<'a> {
    /// The file of that name was opened.
    Opened(&'a [u8]),
    /// The file of that name could not be opened.
    Failed(&'a [u8], Fault),
    /// A file was closed, after these reads.
    Closed(&'a InputLog),
    /// Memory was refused.
    Refused,
}

impl<'a> Notes<Note<'a>> for SourceCalls {
    ghost use Rattle.sum_sources.specs.sources.SourceLog.{state_after_note};

    ghost after_note = { λ source note. state_after_note source note };
}

/// This file was closed.
#[derive(Clone, Copy, Debug)]
pub struct ClosedFile<'a, F>(pub &'a F);

impl<'a, F: Input> Notes<ClosedFile<'a, F>> for SourceCalls {
    ghost use Rattle.sum_sources.specs.sources.Source.{state_after_closing};

    ghost after_note = { λ source note. state_after_closing source (F.state note.0.now) };
}

// The openings of a source, without those of `-`.
#[derive(Clone, Copy)]
pub(crate) struct OthersOf<'a, S>(pub(crate) &'a S);

impl<'a, S: Source> Notes<OthersOf<'a, S>> for SourceCalls {
    ghost use Rattle.sum_sources.specs.sources.WithStdin.{state_without_dash};

    ghost after_note = { λ _ note. state_without_dash (S.state note.0.now) };
}

// These are the reads, none so far, of the file that a source with this log opens next, by this name.
impl<'a> Notes<(&'a SourceLog, &'a [u8])> for InputCalls {
    ghost after_note = { λ _ note. opened_file no_answer note.0.now note.1.now };
}

/// Returns the log, without reads, of the file that a source with this log opens next, by this name.
pub fn next_file(log: &SourceLog, name: &[u8]) -> InputLog
    ensures file { result ≡ opened_file no_answer log.now name.now }
{
    Log::of(&InputCalls).with_note(&(log, name))
}
