//! What opening a name gives.
ghost use Rattle.std.specs.Prelude.{◌≡◌};
ghost use Rattle.sum_sources.specs.sources.{StdinOrFile.is_stdin, StdinOrFile.stdin_or_file_state, WithStdin.is_dash};

use crate::inputs::input_log::InputLog;
use crate::sources::stdin_or_file::StdinOrFile;
use crate::{Fault, Given, Input};

/// What a [`WithStdin`](crate::WithStdin) opened, which by `named` is standard input exactly if its name is `-`.
///
/// It can't be dropped, so the code that opened it must close it.
#[derive(Debug)]
pub struct Opened<I: Input, F: Input> {
    pub(crate) input: StdinOrFile<I, F>,
    ghost named: { is_dash (stdin_or_file_state I.state F.state input).name ≡ is_stdin input },
}

impl<I: Input, F: Input> Opened<I, F> {
    ghost use Rattle.std.specs.Prelude.{IsTrue, false};

    // Standard input, by the opening that the log has.
    pub(crate) fn from_stdin(given: Given<I>, log: InputLog) -> Self
        requires { IsTrue (is_dash log.name) }
        ensures { result.input ≡ StdinOrFile.Stdin given log }
    {
        Opened {
            input: StdinOrFile::Stdin(given, log),
        }
    }

    // A file.
    pub(crate) fn from_file(file: F) -> Self
        requires { is_dash (F.state file).name ≡ false }
        ensures { stdin_or_file_state I.state F.state result.input ≡ F.state file }
    {
        Opened {
            input: StdinOrFile::File(file),
        }
    }
}

impl<I: Input, F: Input> Input for Opened<I, F> {
    ghost use Rattle.sum_sources.specs.{inputs.InputLaws.opened_has_content, sources.Opened.opened_state};

    ghost state = { opened_state };

    fn read(&mut self, buf: &mut [u8]) -> Result<usize, Fault> {
        match &mut self.input {
            StdinOrFile::Stdin(given, _) => given.read(buf),
            StdinOrFile::File(file) => file.read(buf),
        }
    }

    ghost has_content = { λ o. opened_has_content I.state F.state I.has_content F.has_content
        o.input };
}
