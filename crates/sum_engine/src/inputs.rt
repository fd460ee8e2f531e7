//! What a call opens and reads through.
ghost use Rattle.std.specs.Prelude.{◌≡◌, length, IfOk};
ghost use Rattle.sum_sources.specs.sources.HashFile.{HashesFile};
ghost use Rattle.sum_sources.specs.sources.Source.{IsOpen, state_after_closing, state_after_opening, opened_file};

use digest_kinds::{AnyHasher, Digest, Kind};
use std::marker::{Model, PhantomData};
use sum_sources::{HashFault, OpenFault, PIECE, Source, hash_file_with_buffer};

/// A source, and what its files are read into.
#[derive(Debug, Drop)]
pub struct Inputs<S: Source> {
    /// Where names are opened.
    pub source: S,
    // Files are read into this, one after another.
    buffer: [u8; PIECE],
    // A struct whose view speaks of a source must name the type of its files.
    files: PhantomData<S::File>,
}

impl<S: Source> Model for Inputs<S> {
    ghost use Rattle.sum_sources.specs.sources.Source.{SourceState};

    ghost Value = { SourceState };

    ghost view = { λ inputs. S.state inputs.source };
}

impl<S: Source> Inputs<S> {
    /// Creates the inputs of this source.
    pub fn new(source: S) -> Self
        ensures state { result ≡ S.state source }
    {
        Inputs {
            source,
            buffer: [0; PIECE],
            files: PhantomData,
        }
    }

    /// Opens the file of that name in the source.
    pub(crate) fn open(&mut self, name: &[u8]) -> Result<S::File, OpenFault>
        ensures state { self.new ≡ state_after_opening self.old name.now result }
        ensures file { IfOk result
            (λ file. S.File.state file ≡ opened_file S.tells self.old name.now) }
    {
        self.source.open_file(name)
    }

    /// Has the source close a file.
    pub(crate) fn close(&mut self, file: S::File)
        requires { IsOpen S.tells self.old (S.File.state file) }
        ensures { self.new ≡ state_after_closing self.old (S.File.state file) }
    {
        self.source.close_file(file);
    }

    /// Hashes the file of that name: opens it in the source, reads it to its end or its first fault, and closes it.
    pub(crate) fn hash_file(&mut self, kind: Kind, name: &[u8]) -> Result<Digest, HashFault>
        ensures hashed { HashesFile kind name.now self.old self.new result }
        ensures len { IfOk result (λ d. length d ≡ kind.len) }
    {
        hash_file_with_buffer(
            &mut self.source,
            name,
            AnyHasher::new(kind),
            &mut self.buffer,
        )
    }
}
