//! The trait of a source of files, and why a file could not be opened.
ghost use Rattle.std.specs.Prelude.{◌≡◌, IfOk};
ghost use Rattle.sum_sources.specs.sources.Source.{SourceState, ToldAnswers, GivesTold, IsOpen, opened_file};
ghost use Rattle.sum_sources.specs.sources.Source.{state_after_opening, state_after_closing};

use crate::{Fault, Input};
use thiserror::Error;

/// Why a file could not be opened: because of this `Fault`, or for lack of `Memory`, which says nothing about the file.
#[derive(Clone, Copy, Debug, PartialEq, Eq, Error)]
pub enum OpenFault {
    #[error(transparent)]
    Fault(Fault),
    #[error("memory exhausted")]
    Memory,
}

/// A source of files.
pub trait Source {
    /// The input that reads an open file. If its type isn't `Drop`, the code that opened it must close it.
    type File: Input;

    /// Which names it opened, and what it answered. A source that isn't in memory keeps it for proofs alone.
    ghost state: { Self → SourceState };

    /// Which answers it tells, as any function of what it has in memory.
    ghost tells: { ToldAnswers };

    /// Opens the file of this name. Returns `OpenFault::Fault` if it can't be opened, and `OpenFault::Memory` only if
    /// memory was refused; the name then doesn't count as opened.
    fn open_file(&mut self, name: &[u8]) -> Result<Self::File, OpenFault>
        ensures state { state self.new ≡ state_after_opening (state self.old) name.now result }
        ensures file { IfOk result (λ file. Self.File.state file ≡ opened_file tells (state self.old) name.now) };

    /// Closes a file that this source opened, and keeps what was read of it.
    fn close_file(&mut self, file: Self::File)
        requires { IsOpen tells (state self.old) (Self.File.state file) }
        ensures state { state self.new ≡ state_after_closing (state self.old) (Self.File.state file) };

    /// Law: what an opening gave fits the answer, if one is told.
    ghost gives_told: { (s : Self) → GivesTold tells (state s) };
}
