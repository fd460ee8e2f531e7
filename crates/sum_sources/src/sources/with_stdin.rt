//! Standard input and a source of files, as one source.
ghost use Rattle.std.specs.Prelude.{◌≡◌};
ghost use Rattle.sum_sources.specs.sources.WithStdin.{IsSoundWithStdin, is_dash};

use crate::sources::opened::Opened;
use crate::sources::source_log::{ClosedFile, Note, OthersOf, SourceCalls, SourceLog, next_file};
use crate::sources::stdin_or_file::StdinOrFile;
use crate::{Input, OpenFault, Source, Stdin};
use ghost_log::Log;
use std::marker::PhantomData;

/// Standard input, as the file `-`, and a source of files, as one source: `first` is standard input before any opening,
/// `log` has what both opened, and `is` holds them together.
///
/// The first opening of `-` gives standard input, and each later one gives an empty input. Other names are opened in
/// the source.
#[derive(Debug, Drop)]
pub struct WithStdin<I: Input, S: Source> {
    stdin: Stdin<I>,
    source: S,
    // Standard input at first.
    first: Log<Stdin<I>>,
    log: SourceLog,
    // A struct that speaks of a source has to name the type of its files.
    files: PhantomData<S::File>,
    ghost is: { ∥ IsSoundWithStdin I.state first stdin log.openings (S.state source).openings ∥₁ },
}

impl<I: Input, S: Source> WithStdin<I, S> {
    ghost use Rattle.sum_sources.specs.inputs.Stdin.{given_input, is_untaken, closable_state};
    ghost use Rattle.sum_sources.specs.sources.WithStdin.{other_openings, pairs_with_stdin, state_without_dash};
    ghost use Rattle.sum_sources.specs.sources.WithStdinView.{both_state, source_in, stdin_in};
    ghost use Rattle.std.specs.Prelude.{IsTrue};

    /// Creates the inputs with this standard input, which hasn't been taken, and this source. What the source opened
    /// before by the name `-` doesn't count.
    pub fn new(stdin: Stdin<I>, source: S) -> Self
        requires { IsTrue (is_untaken stdin) }

        ensures stdin { stdin_in result ≡ stdin }
        ensures source { source_in result ≡ source }
        ensures state { both_state result ≡ record (state_without_dash (S.state source)) {
          told = pairs_with_stdin (closable_state I.state (given_input stdin)).told
              (S.state source).told;
        } }
    {
        let first = Log::of(&stdin);
        let log = Log::of(&SourceCalls).with_note(&OthersOf(&source));
        WithStdin {
            stdin,
            source,
            first,
            log,
            files: PhantomData,
        }
    }

    /// Returns the source of files.
    pub fn source(&self) -> &S
        ensures source { result.now ≡ source_in self.now }
        // Each name but `-` was opened in it, in this order.
        ensures others { other_openings (S.state result.now).openings
            ≡ other_openings (both_state self.now).openings }
    {
        &self.source
    }
}

/// Returns whether the name is that of standard input, `-`.
pub fn is_dash(name: &[u8]) -> bool
    ensures value { result ≡ is_dash name.now }
{
    b"-".as_slice() == name
}

impl<I: Input + Drop, S: Source> Source for WithStdin<I, S> {
    ghost use Rattle.sum_sources.specs.sources.{SourceLaws.with_stdin_gives, WithStdin.answer_of_both};
    ghost use Rattle.sum_sources.specs.sources.WithStdinView.{both_state, source_in, stdin_in};

    type File = Opened<I, S::File>;

    ghost state = { both_state };

    ghost tells = { answer_of_both S.tells };

    ghost use Rattle.std.specs.Prelude.{IfOk, MatchBool, MatchResult};
    ghost use Rattle.sum_sources.specs.sources.{Opened.opened_state, Opened.input_in, WithStdin.TakesStdin};
    ghost use Rattle.sum_sources.specs.sources.Source.{state_after_opening, opened_file};

    /// Opens the name: `-` gives what taking standard input gives, without a fault, and any other name is opened in the
    /// source.
    fn open_file(&mut self, name: &[u8]) -> Result<Opened<I, S::File>, OpenFault>
        ensures state { both_state self.new ≡ state_after_opening (both_state self.old) name.now result }
        ensures file { IfOk result (λ file. opened_state file
            ≡ opened_file (answer_of_both S.tells) (both_state self.old) name.now) }
        // `-` gives what taking standard input gives, and the source is unchanged. Any other name is opened in the
        // source, and standard input is unchanged.
        ensures parts { MatchBool (is_dash name.now)
            (MatchResult result
            (λ file. TakesStdin (stdin_in self.old) (stdin_in self.new) (input_in file)) (λ _. ⊥)
            × (source_in self.new ≡ source_in self.old))
            ((stdin_in self.new ≡ stdin_in self.old)
            × (S.state (source_in self.new)
            ≡ state_after_opening (S.state (source_in self.old)) name.now result)) }
    {
        if is_dash(name) {
            let opened = Opened::from_stdin(self.stdin.take(), next_file(&self.log, name));
            self.log = self.log.with_note(&Note::Opened(name));
            return Ok(opened);
        }
        match self.source.open_file(name) {
            Ok(file) => {
                self.log = self.log.with_note(&Note::Opened(name));
                Ok(Opened::from_file(file))
            }
            Err(OpenFault::Fault(fault)) => {
                self.log = self.log.with_note(&Note::Failed(name, fault));
                Err(OpenFault::Fault(fault))
            }
            Err(OpenFault::Memory) => Err(OpenFault::Memory),
        }
    }

    ghost use Rattle.sum_sources.specs.sources.Source.{IsOpen, state_after_closing};
    ghost use Rattle.sum_sources.specs.sources.WithStdin.{parts_after_closing};

    fn close_file(&mut self, file: Opened<I, S::File>)
        requires { IsOpen (answer_of_both S.tells) (both_state self.old) (opened_state file) }
        ensures state { both_state self.new
            ≡ state_after_closing (both_state self.old) (opened_state file) }
        ensures parts { (stdin_in self.new, S.state (source_in self.new))
            ≡ parts_after_closing S.File.state (input_in file) (stdin_in self.old)
            (S.state (source_in self.old)) }
    {
        self.log = self.log.with_note(&ClosedFile(&file));
        let Opened { input } = file;
        match input {
            StdinOrFile::Stdin(given, _) => self.stdin.put_back(given),
            StdinOrFile::File(file) => self.source.close_file(file),
        }
    }

    ghost gives_told = { λ s. with_stdin_gives I.state S.tells s.first s.stdin s.log
        (S.state s.source) s.is (S.gives_told s.source) };
}
