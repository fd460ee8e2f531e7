//! A list of arguments in memory.
ghost use Rattle.std.specs.Prelude.{◌≡◌, ◌≤◌, [], IfOk, None, Some, length, map};
ghost use Rattle.sum_words.specs.Arguments.{FitsArguments, FitsArguments-prop};
ghost use Rattle.sum_words.specs.private.CommandLine.{Fills};

use crate::arguments::Arguments;
use crate::arguments_log::{ArgumentCalls, Filled};
use ghost_log::Log;
use std::env::FillError;

/// A list of arguments in memory.
#[derive(Debug, Drop)]
pub struct ToldArguments<'a> {
    arguments: &'a [&'a [u8]],
    log: Log<ArgumentCalls>,
    // The list agrees with what the calls gave.
    ghost agrees: { FitsArguments log (map (λ a. a.now) arguments.now) } by { FitsArguments-prop log (map (λ a. a.now) arguments.now) },
}

impl<'a> ToldArguments<'a> {
    ghost use Rattle.sum_words.specs.ToldArguments.{told_arguments_state};

    /// Creates a list of these arguments, which begin with the name by which the program was called.
    pub fn new(arguments: &'a [&'a [u8]]) -> Self
        ensures state { told_arguments_state result ≡ record {
          told = Some (map (λ a. a.now) arguments.entry.now);
          given = [];
          fault = None;
        } }
    {
        ToldArguments {
            arguments,
            log: Log::of(&ArgumentCalls),
        }
    }
}

impl<'a> Arguments for ToldArguments<'a> {
    ghost use Rattle.std.specs.Prelude.{refl};
    ghost use Rattle.sum_words.specs.ToldArguments.{told_arguments_state};

    ghost state = { told_arguments_state };

    fn fill(&mut self, place: usize, buffer: &mut [u8]) -> Result<usize, FillError> {
        let filled = fill_from(self.arguments, place, buffer);
        self.log = self.log.with_note(&Filled(buffer, &filled));
        filled
    }

    ghost has_list = { λ s. (
      map (λ a. a.now) s.arguments.now,
      record {
        told = refl;
        given = s.agrees.given;
        fault = s.agrees.fault;
      },
    ) };
}

// Copies the argument at this place to the front of the buffer.
fn fill_from(arguments: &[&[u8]], place: usize, buffer: &mut [u8]) -> Result<usize, FillError>
    ensures count { IfOk result (λ n. n ≤ length buffer.new) }
    ensures fills { Fills (map (λ a. a.now) arguments.now) place buffer.new result }
{
    let Some(argument) = arguments.get(place) else {
        return Err(FillError::NotPresent);
    };
    let len = argument.len();
    if buffer.len() < len {
        return Err(FillError::TooLong);
    }
    buffer[..len].copy_from_slice(argument);
    Ok(len)
}
