//! Real files. Nothing else can open one, or set the log of what was opened.
ghost use Rattle.std.specs.Prelude.{◌≡◌};
ghost use Rattle.sum_sources.specs.sources.Source.{SourceState};
ghost use Rattle.sum_sources.specs.sources.SourceLog.{no_openings};

use crate::fault::EILSEQ;
use crate::sources::source_log::{Note, SourceCalls, SourceLog, next_file};
use crate::system::errors::{fault_of, is_refusal};
use crate::{Fault, FromRead, OpenFault, Source};
use std::io::Read;
use std::marker::Model;
use std::{fs, rt};

/// The files that the runtime opens.
#[derive(Debug, Drop)]
pub struct Files<R> {
    rt: R,
    log: SourceLog,
}

impl<R> Model for Files<R> {
    ghost Value = { SourceState };

    ghost view = { λ s. s.log };
}

impl<R: rt::Files + Drop> Files<R> {
    /// Creates a source of this runtime's files.
    pub fn new(rt: R) -> Self
        ensures state { result ≡ no_openings }
    {
        Files {
            rt,
            log: SourceLog::of(&SourceCalls),
        }
    }
}

impl<R: rt::Files> Source for Files<R>
where
    R::File: Read + Drop,
{
    type File = FromRead<R::File>;

    ghost use Rattle.std.specs.Prelude.{[]};
    ghost use Rattle.sum_sources.specs.sources.{SourceLaws.untold_gives};
    ghost use Rattle.sum_sources.specs.sources.SourceLog.{no_answer};

    ghost state = { λ s. record s { told = [] } };

    ghost tells = { no_answer };

    /// Opens the file. A name that isn't UTF-8 gives `Fault::Os(EILSEQ)`, *Invalid or incomplete multibyte or wide
    /// character*, since the runtime's paths are strings. Any other fault is the system's. Returns `OpenFault::Memory`
    /// if the runtime has no memory for the call.
    fn open_file(&mut self, name: &[u8]) -> Result<FromRead<R::File>, OpenFault> {
        let Ok(path) = str::from_utf8(name) else {
            let fault = Fault::Os(EILSEQ);
            self.log = self.log.with_note(&Note::Failed(name, fault));
            return Err(OpenFault::Fault(fault));
        };
        match fs::open(&self.rt, path) {
            Ok(file) => {
                let log = next_file(&self.log, name);
                self.log = self.log.with_note(&Note::Opened(name));
                Ok(FromRead::with_log(file, log))
            }
            Err(error) if is_refusal(&error) => {
                self.log = self.log.with_note(&Note::Refused);
                Err(OpenFault::Memory)
            }
            Err(error) => {
                let fault = fault_of(&error);
                self.log = self.log.with_note(&Note::Failed(name, fault));
                Err(OpenFault::Fault(fault))
            }
        }
    }

    fn close_file(&mut self, file: FromRead<R::File>) {
        self.log = self.log.with_note(&Note::Closed(file.log()));
    }

    ghost gives_told = { untold_gives };
}
