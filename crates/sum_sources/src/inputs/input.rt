//! The trait of an input, how far one was read, and how much is read at once.
ghost use Rattle.std.specs.Prelude.{◌≡◌, ◌≤◌, length, IfOk};
ghost use Rattle.sum_sources.specs.inputs.Input.{InputState, HasContent, phase_after, state_after_read};

use crate::{Ending, Fault};

/// The most bytes that are read at once.
pub const PIECE: usize = 8192;

/// An input: bytes, and then an end or a fault.
pub trait Input {
    /// Which file it is, and what its reads gave so far. An input that isn't in memory keeps it for proofs alone.
    ghost state: { Self → InputState };

    /// Reads some of the remaining bytes into the front of `buf`, and returns how many: at most its length. Returns 0
    /// for a nonempty `buf` only if the input has ended whole. Returns a fault only if no byte remains and the input
    /// ends with that fault. After its end or its fault an input may go on.
    fn read(&mut self, buf: &mut [u8]) -> Result<usize, Fault>
        ensures count { IfOk result (λ n. n ≤ length buf.new) }
        // What the read gave is added to what the reads before it gave, and nothing else changes.
        ensures reads { state self.new ≡ state_after_read (state self.old) buf.new result };

    /// Law: the reads fit some content, and the one in memory if there is one.
    ghost has_content: { (s : Self) → HasContent (state s) };
}

/// How far an input was read.
#[derive(Clone, Copy, Debug, PartialEq, Eq)]
pub enum Phase {
    /// Each read so far gave bytes, or there was no read.
    Unfinished,
    /// The last read found the end, or failed with the fault.
    Ended(Ending),
    /// It was read again after its end or a fault, or it was read into an empty buffer, which may fail or wait, and
    /// shows nothing. It stays `Past` from then on.
    Past,
}

impl Phase {
    /// Returns the phase after a read into a buffer of `size` bytes returned `read`.
    pub fn after(self, size: usize, read: &Result<usize, Fault>) -> Phase
        ensures phase { result ≡ phase_after self size read.now }
    {
        if size == 0 {
            return Phase::Past;
        }
        match (self, read) {
            (Phase::Unfinished, Ok(0)) => Phase::Ended(Ending::Whole),
            (Phase::Unfinished, Ok(_)) => Phase::Unfinished,
            (Phase::Unfinished, Err(fault)) => Phase::Ended(Ending::Broken(*fault)),
            _ => Phase::Past,
        }
    }
}
