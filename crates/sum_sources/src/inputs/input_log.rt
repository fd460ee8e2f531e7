//! The log of an input.
ghost use Rattle.sum_sources.specs.inputs.Input.{InputState, state_after_read};
ghost use Rattle.sum_sources.specs.inputs.InputLog.{no_reads};

use crate::Fault;
use ghost_log::{Log, Notes};
use std::marker::Model;

/// An input before its first read, with which its log begins. No source opened it.
#[derive(Debug, Drop)]
pub struct InputCalls;

impl Model for InputCalls {
    ghost Value = { InputState };

    ghost view = { λ _. no_reads };
}

/// Which file an input is, and what its reads gave so far. Only proofs see it.
pub type InputLog = Log<InputCalls>;

/// A read that returned `result`, and left this in its buffer.
#[derive(Clone, Copy, Debug)]
pub struct ReadNote<'a>(pub &'a [u8], pub &'a Result<usize, Fault>);

impl<'a> Notes<ReadNote<'a>> for InputCalls {
    ghost after_note = { λ input note. state_after_read input note.0.now note.1.now };
}
