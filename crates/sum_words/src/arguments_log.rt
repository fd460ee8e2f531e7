//! The log of arguments.
use ghost_log::Notes;
use std::env::FillError;
use std::marker::Model;

/// The calls for arguments, before the first. Their log, which only proofs see, has what they gave.
#[derive(Drop)]
pub(crate) struct ArgumentCalls;

impl Model for ArgumentCalls {
    ghost use Rattle.std.specs.Prelude.{[], None};
    ghost use Rattle.sum_words.specs.Arguments.{ArgumentsState};

    ghost Value = { ArgumentsState };

    ghost view = { λ _. record { told = None; given = []; fault = None } };
}

/// A call left this in its buffer, and returned that.
#[derive(Clone, Copy)]
pub(crate) struct Filled<'a>(pub(crate) &'a [u8], pub(crate) &'a Result<usize, FillError>);

impl<'a> Notes<Filled<'a>> for ArgumentCalls {
    ghost use Rattle.sum_words.specs.Arguments.{state_after_fill};

    ghost after_note = { λ s x. state_after_fill s x.0.now x.1.now };
}
