//! The streams of a call.
ghost use Rattle.std.specs.Prelude.{◌≡◌, IsTrue, []};
ghost use Rattle.sum_engine.specs.Streams.{WritesAndReturns};

use crate::inputs::Inputs;
use std::marker::Model;
use sum_lines::{Output, Sink, Text};
use sum_settings::Stop;
use sum_sources::Source;

/// Both outputs.
#[derive(Debug, Drop)]
pub struct Outputs<O: Sink, E: Sink> {
    /// Standard output.
    pub out: Output<O>,
    /// Standard error.
    pub err: Output<E>,
}

impl<O: Sink, E: Sink> Model for Outputs<O, E> {
    ghost use Rattle.sum_engine.specs.Streams.{BothOutputs};

    ghost Value = { BothOutputs };

    ghost view = { λ outputs. record { out = outputs.out; err = outputs.err } };
}

impl<O: Sink, E: Sink> Outputs<O, E> {
    /// Writes a text to standard error, and then returns `outcome`. Returns `Stop::Write` if that fails; a prefix of
    /// the text was then written. For the crates above.
    #[doc(hidden)]
    pub fn write_err<X: Text, T: Drop>(&mut self, text: &X, outcome: T) -> Result<T, Stop>
        ensures text { WritesAndReturns self.old self.new (X.text text.now) [] outcome result }
    {
        self.err.write(text)?;
        Ok(outcome)
    }

    /// Writes a text to standard output, and then returns `outcome`, as [`Outputs::write_err`] does.
    #[doc(hidden)]
    pub fn write_out<X: Text, T: Drop>(&mut self, text: &X, outcome: T) -> Result<T, Stop>
        ensures text { WritesAndReturns self.old self.new [] (X.text text.now) outcome result }
    {
        self.out.write(text)?;
        Ok(outcome)
    }
}

/// What a call reads from and writes to.
#[derive(Drop)]
#[derive_where(Debug; S, S::File, O, E)]
pub struct Streams<S: Source, O: Sink, E: Sink> {
    /// What it opens and reads through.
    pub inputs: Inputs<S>,
    /// What it writes to.
    pub outputs: Outputs<O, E>,
}

impl<S: Source, O: Sink, E: Sink> Model for Streams<S, O, E> {
    ghost use Rattle.sum_engine.specs.Streams.{StreamsState};

    ghost Value = { StreamsState };

    ghost view = { λ streams. record { inputs = streams.inputs; outputs = streams.outputs } };
}

impl<S: Source, O: Sink, E: Sink> Streams<S, O, E> {
    /// Creates the streams of these parts. The outputs are over sinks that are flushed, as each is before its first
    /// call.
    pub fn new(source: S, out: O, err: E) -> Self
        requires out { IsTrue (O.state out).flushed }
        requires err { IsTrue (E.state err).flushed }
        // The state of the streams is that of the parts.
        ensures inputs { result.inputs ≡ S.state source }
        ensures outputs { result.outputs ≡ record {
          out = (O.state out).output;
          err = (E.state err).output;
        } }
    {
        Streams {
            inputs: Inputs::new(source),
            outputs: Outputs {
                out: Output::new(out),
                err: Output::new(err),
            },
        }
    }
}
