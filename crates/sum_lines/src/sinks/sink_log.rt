//! The log of a sink.
use crate::sinks::sink::SinkFault;
use ghost_log::{Log, Notes};
use std::marker::Model;

/// The log of a sink, which only proofs see: what it was offered, what was written of that, how often a call failed,
/// and whether it is flushed.
pub type SinkLog = Log<SinkCalls>;

/// A sink before its first call, with which its log begins.
#[derive(Debug, Drop)]
pub struct SinkCalls;

impl Model for SinkCalls {
    ghost use Rattle.std.specs.Prelude.{true, []};
    ghost use Rattle.sum_lines.specs.sinks.Sink.{SinkState};

    ghost Value = { SinkState };

    ghost view = { λ _. record { output = record { offered = []; written = []; failures = 0 }; flushed = true } };
}

/// A piece was offered, and these bytes of it were written.
#[derive(Clone, Copy, Debug)]
pub struct Offer<'a>(pub &'a [u8], pub &'a [u8]);

impl<'a> Notes<Offer<'a>> for SinkCalls {
    ghost use Rattle.std.specs.Prelude.{false, ◌++◌, ◌∷◌, []};

    ghost after_note = { λ s x. let o = s.output in
        record {
          output = record o { offered = o.offered ++ x.0.now ∷ []; written = o.written ++ x.1.now };
          flushed = false;
        } };
}

/// A flush succeeded.
#[derive(Clone, Copy, Debug)]
pub struct Flushed;

impl Notes<Flushed> for SinkCalls {
    ghost use Rattle.std.specs.Prelude.{true};

    ghost after_note = { λ s _. record s { flushed = true } };
}

// A call failed, so nothing is held back.
impl Notes<SinkFault> for SinkCalls {
    ghost use Rattle.std.specs.Prelude.{true, ◌+◌};

    ghost after_note = { λ s _. let o = s.output in
        record { output = record o { failures = o.failures + 1 }; flushed = true } };
}
