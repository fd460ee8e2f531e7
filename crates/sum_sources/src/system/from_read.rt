//! An input over a reader of `std`. Nothing else can call the reader, or set the log of what it gave.
ghost use Rattle.std.specs.Io.KnownBytes.{Consumes, ReadConsumes};
ghost use Rattle.std.specs.Prelude.{◌≡◌, ◌≤◌, length, IfOk, IfSome, None};
ghost use Rattle.sum_sources.specs.{Fault.Whole};
ghost use Rattle.sum_sources.specs.system.FromRead.{FromReadValue};
ghost use Rattle.sum_sources.specs.inputs.Input.{Ended, state_after_read, empty_reads};
ghost use Rattle.sum_sources.specs.inputs.InputLog.{no_reads};

use crate::inputs::input_log::{InputCalls, InputLog, ReadNote};
use crate::system::errors::fault_of;
use crate::{Fault, Input};
use std::fmt::{self, Debug, Formatter};
use std::io::{ErrorKind, Read};
use std::marker::Model;
use std::snapshot::Snapshot;
use sum_settings::INTERRUPTION_LIMIT;

/// An `Input` over any `std::io::Read`: by its invariant its log has all that the reader gave since `first`, and a
/// whole end only if the reader, as far as its bytes are known, has ended.
#[derive(Drop)]
pub struct FromRead<R: Read> {
    reader: R,
    // The reader as it was at first: only proofs see it.
    first: Snapshot<R>,
    log: InputLog,
}

impl<R: Read> Model for FromRead<R> {
    ghost Value = { FromReadValue R };

    ghost view = { λ s. record { reader = s.reader; log = s.log } };

    // What the reader was known at first to give is what the log has, followed by what remains. At its end, it is what
    // the log has.
    ghost invariant = { λ s. Consumes (R.remaining s.first.value) (R.remaining s.reader) s.log.reads.bytes
        × (s.log.reads.phase ≡ Ended Whole → IfSome (R.remaining s.first.value) (λ all. all ≡ s.log.reads.bytes)) };
}

impl<R: Read> FromRead<R> {
    /// Creates the input that reads from `reader`. An error of the reader becomes a fault by its number or, if it has
    /// none, by its kind. The 1,000th interruption in a row within one read is `Fault::Other`.
    pub fn new(reader: R) -> Self
        ensures state { result ≡ record { reader = reader; log = no_reads } }
    {
        FromRead::with_log(reader, InputLog::of(&InputCalls))
    }

    // The input that reads from `reader`, with this log, which has no reads.
    pub(crate) fn with_log(reader: R, log: InputLog) -> Self
        requires { log.reads ≡ empty_reads }
        ensures { result ≡ record { reader = reader; log = log } }
    {
        FromRead {
            first: Snapshot::of(&reader),
            reader,
            log,
        }
    }

    // What its reads gave.
    pub(crate) fn log(&self) -> &InputLog
        ensures { result.now ≡ self.now.log }
    {
        &self.log
    }
}

impl<R: Read> Debug for FromRead<R> {
    fn fmt<W: fmt::Write>(&self, f: &mut Formatter<W>) -> fmt::Result {
        f.write_str("FromRead")
    }
}

// A read, which is tried again after each interruption.
fn read_uninterrupted<R: Read>(reader: &mut R, buf: &mut [u8]) -> Result<usize, Fault>
    ensures count { IfOk result (λ n. n ≤ length buf.new) }
    ensures size { length buf.new ≡ length buf.old }
    ensures given { ReadConsumes (R.remaining reader.old) (R.remaining reader.new) result buf.new }
{
    for _ in 0..INTERRUPTION_LIMIT {
        match reader.read(buf) {
            Ok(n) => return Ok(n),
            Err(error) if error.kind() == ErrorKind::Interrupted => {}
            Err(error) => return Err(fault_of(&error)),
        }
    }
    Err(Fault::Other)
}

impl<R: Read> Input for FromRead<R> {
    ghost use Rattle.sum_sources.specs.inputs.InputLaws.{untold_has_content};

    ghost state = { λ s. record s.log { told = None } };

    fn read(&mut self, buf: &mut [u8]) -> Result<usize, Fault>
        ensures count { IfOk result (λ n. n ≤ length buf.new) }
        ensures given { ReadConsumes (R.remaining self.old.reader) (R.remaining self.new.reader)
            result buf.new }
        ensures log { self.new.log ≡ state_after_read self.old.log buf.new result }
    {
        let read = read_uninterrupted(&mut self.reader, buf);
        self.log = self.log.with_note(&ReadNote(buf, &read));
        read
    }

    ghost has_content = { λ s. untold_has_content s.log };
}
