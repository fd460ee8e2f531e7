//! The trait of a list of arguments.
ghost use Rattle.digest_kinds.specs.Bytes.{ByteString};
ghost use Rattle.std.specs.Prelude.{◌≡◌, ◌≤◌, IfOk, List, length};
ghost use Rattle.sum_words.specs.Arguments.{ArgumentsState, FitsArguments, state_after_fill};

use std::env::FillError;

/// A list of arguments, which begins with the name by which the program was called.
pub trait Arguments {
    /// What its calls gave. A list that isn't in memory keeps it for proofs alone.
    ghost state: { Self → ArgumentsState };

    /// Copies the argument at this place, counted from 0, to the front of the buffer, and returns its length. The
    /// arguments are asked for in their order. Returns `FillError::NotPresent` past the last one, and
    /// `FillError::TooLong` if the argument is longer than the buffer.
    fn fill(&mut self, place: usize, buffer: &mut [u8]) -> Result<usize, FillError>
        requires place { place ≡ length (state self.old).given }
        ensures count { IfOk result (λ n. n ≤ length buffer.new) }
        ensures given { state self.new ≡ state_after_fill (state self.old) buffer.new result };

    /// Law: some list agrees with what its calls gave.
    ghost has_list: { (s : Self) → (all : List ByteString) × FitsArguments (state s) all };
}
