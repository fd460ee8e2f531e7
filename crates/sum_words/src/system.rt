//! The arguments that the system gives. Nothing else can ask for them, or set the log of what was given.
ghost use Rattle.std.specs.Prelude.{◌≡◌, []};

use crate::arguments::Arguments;
use crate::arguments_log::{ArgumentCalls, Filled};
use ghost_log::Log;
use std::env::FillError;
use std::rt::Env;

/// The arguments that the system gives.
#[derive(Debug, Drop)]
pub struct SystemArguments<R> {
    rt: R,
    log: Log<ArgumentCalls>,
}

impl<R: Env> SystemArguments<R> {
    ghost use Rattle.sum_words.specs.System.{system_arguments_state};

    /// Creates the list of this runtime's arguments.
    pub fn new(rt: R) -> Self
        ensures given { (system_arguments_state result).given ≡ [] }
    {
        SystemArguments {
            rt,
            log: Log::of(&ArgumentCalls),
        }
    }
}

impl<R: Env> Arguments for SystemArguments<R> {
    ghost use Rattle.sum_words.specs.System.{system_arguments_state};

    ghost state = { system_arguments_state };

    fn fill(&mut self, place: usize, buffer: &mut [u8]) -> Result<usize, FillError> {
        let filled = self.rt.arg(place, buffer);
        self.log = self.log.with_note(&Filled(buffer, &filled));
        filled
    }

    ghost use Rattle.sum_words.specs.Arguments.{untold_has_list};

    ghost has_list = { λ s. untold_has_list s.log };
}
