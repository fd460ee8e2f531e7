//! Standard input, which a run gets once.
ghost use Rattle.std.specs.Prelude.{◌≡◌, IsTrue, None};
ghost use Rattle.sum_sources.specs.inputs.Stdin.{GivesUnread, StdinValue, given_input, stdin_after_taking};
ghost use Rattle.sum_sources.specs.inputs.Stdin.{stdin_after_put_back};

use crate::fault::EBADF;
use crate::{Ending, Fault, Input, Phase};
use std::marker::Model;

/// What standard input reads from: an input, or, if it is closed, no bytes with this ending, read as far as the phase.
#[derive(Debug, Drop)]
pub(crate) enum Closable<I> {
    /// The input, which is open.
    Open(I),
    /// An input without bytes that has this ending. The phase says how far it was read.
    Closed(Ending, Phase),
}

/// Standard input: its input is taken once, and then put back, and until it is taken nothing has been read of it.
#[derive(Debug, Drop)]
pub struct Stdin<I: Input> {
    taken: bool,
    // Unless it is taken and wasn't put back.
    input: Option<Closable<I>>,
}

impl<I: Input> Model for Stdin<I> {
    ghost Value = { StdinValue I };

    ghost view = { λ s. (s.taken, s.input) };

    ghost invariant = { λ s. GivesUnread I.state (s.taken, s.input) × (s.input ≡ None → IsTrue s.taken) };
}

/// What taking standard input gives: its input the first time, and an empty one afterwards.
///
/// [`Stdin::take`] gives it. It can't be dropped, so the code that took it must put it back.
#[derive(Debug)]
pub struct Given<I> {
    input: Closable<I>,
}

impl<I> Model for Given<I> {
    ghost use Rattle.sum_sources.specs.declared.inputs.stdin.Closable.{Closable};

    ghost Value = { Closable I };

    ghost view = { λ s. s.input };
}

impl<I: Input> Stdin<I> {
    ghost use Rattle.std.specs.Prelude.{false, Some};
    ghost use Rattle.sum_sources.specs.inputs.Stdin.{bad_descriptor};
    ghost use Rattle.sum_sources.specs.declared.inputs.stdin.Closable.TheVariants.{Open, Closed};
    ghost use Rattle.sum_sources.specs.inputs.Input.{empty_reads};

    /// Creates a standard input that gives `input`, which hasn't been read, when it is taken.
    pub fn new(input: I) -> Self
        requires { (I.state input).reads ≡ empty_reads }
        ensures state { result ≡ (false, Some (Open input)) }
    {
        Stdin {
            taken: false,
            input: Some(Closable::Open(input)),
        }
    }

    /// Creates a standard input that is closed. Each read of what the first [`Stdin::take`] gives fails
    /// with `Fault::Os(EBADF)`, *Bad file descriptor*.
    pub fn closed() -> Self
        ensures state { result ≡ (false, Some (Closed (Ending.Broken bad_descriptor) Phase.Unfinished)) }
    {
        Stdin {
            taken: false,
            input: Some(Closable::Closed(Ending::Broken(Fault::Os(EBADF)), Phase::Unfinished)),
        }
    }
}

impl<I: Input + Drop> Stdin<I> {
    /// Returns its input the first time, and an empty input afterwards.
    pub fn take(&mut self) -> Given<I>
        ensures given { result ≡ given_input self.old }
        ensures unread { GivesUnread I.state self.old }
        ensures taken { self.new ≡ stdin_after_taking self.old }
    {
        let input = if self.taken { None } else { self.input.take() };
        self.taken = true;
        Given {
            input: input.unwrap_or(Closable::Closed(Ending::Whole, Phase::Unfinished)),
        }
    }

    /// Puts back what `take` gave. It is kept if nothing was put back before, and dropped otherwise.
    pub fn put_back(&mut self, given: Given<I>)
        ensures state { self.new ≡ stdin_after_put_back self.old given }
    {
        let Given { input } = given;
        if self.taken && self.input.is_none() {
            self.input = Some(input);
        }
    }
}

impl<I: Input> Input for Given<I> {
    ghost use Rattle.sum_sources.specs.inputs.{InputLaws.closable_has_content, Stdin.closable_state};

    ghost state = { λ s. closable_state I.state s };

    fn read(&mut self, buf: &mut [u8]) -> Result<usize, Fault> {
        match &mut self.input {
            Closable::Open(input) => input.read(buf),
            Closable::Closed(ending, phase) => {
                let result = ending.read();
                *phase = phase.after(buf.len(), &result);
                result
            }
        }
    }

    ghost has_content = { closable_has_content I.state I.has_content };
}
