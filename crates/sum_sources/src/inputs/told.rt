//! An input in memory.
ghost use Rattle.std.specs.Prelude.{◌≡◌, ◌≤◌, [], length, max, IfOk};
ghost use Rattle.sum_sources.specs.{Fault.Ending, inputs.Input.Ended, private.Told.GivesFrom};
ghost use Rattle.sum_sources.specs.inputs.InputLog.{told_reads};

use crate::inputs::input_log::{InputCalls, InputLog, ReadNote};
use crate::{Ending, Fault, Input, Phase};

/// An input of bytes in memory. Once it has ended, each read gives the end, or the fault, again.
#[derive(Debug, Drop)]
pub struct Told<'a> {
    bytes: &'a [u8],
    ending: Ending,
    // How many of the bytes its reads gave.
    given: usize,
    piece: usize,
    phase: Phase,
    log: InputLog,
    ghost some: { 1 ≤ piece },
    ghost few: { given ≤ length bytes.now },
    ghost ended: { (e : Ending) → phase ≡ Ended e → length bytes.now ≤ given },
    ghost logged: { log.reads
        ≡ told_reads (record { bytes = bytes.now; ending = ending }) given phase },
}

impl<'a> Told<'a> {
    ghost use Rattle.sum_sources.specs.inputs.{Input.empty_reads, Told.told_state, Told.told_view};

    /// Creates an input of the bytes `content`, at most `piece` per read (0 counts as 1), and then `ending`.
    pub fn new(content: &'a [u8], ending: Ending, piece: usize) -> Told<'a>
        ensures state { told_view result ≡ record {
          content = record { bytes = content.entry.now; ending = ending };
          given = 0;
          piece = max piece 1;
          phase = Phase.Unfinished;
          nth = 0;
          name = [];
        } }
    {
        Told::opened(content, ending, piece, InputLog::of(&InputCalls))
    }

    // Creates such an input, opened by a source.
    pub(crate) fn opened(content: &'a [u8], ending: Ending, piece: usize, log: InputLog) -> Told<'a>
        requires { log.reads ≡ empty_reads }
        ensures { told_view result ≡ record {
          content = record { bytes = content.entry.now; ending = ending };
          given = 0;
          piece = max piece 1;
          phase = Phase.Unfinished;
          nth = log.nth;
          name = log.name;
        } }
    {
        Told {
            bytes: content,
            ending,
            given: 0,
            piece: piece.max(1),
            phase: Phase::Unfinished,
            log,
        }
    }

    // What its reads gave.
    pub(crate) fn log(&self) -> &InputLog
        ensures { result.now ≡ record (told_state (told_view self.now)) { told = result.now.told } }
    {
        &self.log
    }
}

// One read of bytes of which some were given: some of those that remain, or their ending.
fn give(
    bytes: &[u8],
    ending: Ending,
    piece: usize,
    given: &mut usize,
    buf: &mut [u8],
) -> Result<usize, Fault>
    requires some { 1 ≤ piece }
    requires few { given.old ≤ length bytes.now }

    // Bounds.
    ensures few { given.new ≤ length bytes.now }
    ensures count { IfOk result (λ n. n ≤ length buf.new) }
    ensures at_most { IfOk result (λ n. n ≤ piece) }
    ensures size { length buf.new ≡ length buf.old }

    // What the read gave.
    ensures gives { GivesFrom (record { bytes = bytes.now; ending = ending }) given.old given.new
        (length buf.old) result buf.new }
{
    let rest = &bytes[*given..];
    if rest.is_empty() {
        return ending.read();
    }
    let n = piece.min(rest.len()).min(buf.len());
    buf[..n].copy_from_slice(&rest[..n]);
    *given += n;
    Ok(n)
}

impl<'a> Input for Told<'a> {
    ghost use Rattle.sum_sources.specs.inputs.{Input.state_after_read, Told.told_state, Told.told_view};

    ghost state = { λ s. told_state (told_view s) };

    fn read(&mut self, buf: &mut [u8]) -> Result<usize, Fault>
        ensures count { IfOk result (λ n. n ≤ length buf.new) }
        ensures at_most { IfOk result (λ n. n ≤ (told_view self.old).piece) }
        ensures piece { (told_view self.new).piece ≡ (told_view self.old).piece }
        ensures reads { told_state (told_view self.new)
            ≡ state_after_read (told_state (told_view self.old)) buf.new result }
    {
        let result = give(self.bytes, self.ending, self.piece, &mut self.given, buf);
        self.phase = self.phase.after(buf.len(), &result);
        self.log = self.log.with_note(&ReadNote(buf, &result));
        result
    }

    ghost use Rattle.sum_sources.specs.inputs.InputLaws.{told_has_content};

    ghost has_content = { λ s. told_has_content (told_view s) };
}
