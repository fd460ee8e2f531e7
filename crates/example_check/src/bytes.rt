//! An input of one's own: the bytes of a reader.
ghost use Rattle.std.specs.Prelude.{◌≡◌};
ghost use Rattle.sum_sources.specs.inputs.InputLog.{no_reads};

use std::io::Read;
use sum_sources::{Fault, Input, InputCalls, InputLog, ReadNote};

#[derive(Drop)]
pub struct Bytes<R> {
    reader: R,
    log: InputLog,
}

impl<R: Read> Bytes<R> {
    /// Creates an input of which nothing was read.
    pub fn new(reader: R) -> Self
        ensures { result ≡ record { reader = reader; log = no_reads } }
    {
        Bytes {
            reader,
            log: InputLog::of(&InputCalls),
        }
    }
}

impl<R: Read> Input for Bytes<R> {
    ghost use Rattle.std.specs.Prelude.{None};
    ghost use Rattle.sum_sources.specs.inputs.InputLaws.{untold_has_content};

    ghost state = { λ s. record s.log { told = None } };

    fn read(&mut self, buf: &mut [u8]) -> Result<usize, Fault> {
        let read = match self.reader.read(buf) {
            Ok(count) => Ok(count),
            Err(_) => Err(Fault::Other),
        };
        self.log = self.log.with_note(&ReadNote(buf, &read));
        read
    }

    ghost has_content = { λ s. untold_has_content s.log };
}
