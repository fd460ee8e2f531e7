//! The program over what the system gives it. `main` calls nothing else of ours.
ghost use Rattle.digests.specs.Program.{ProgramPerforms, fresh_streams};
ghost use Rattle.std.specs.Prelude.{ℕ, suc, All, ◌≡◌, Ok, codes};
ghost use Rattle.sum_engine.specs.{Behavior.World, Execution.Agrees, Execution.ReadsFile, Streams.failures_of};
ghost use Rattle.sum_sources.specs.inputs.InputLog.{empty_content};
ghost use Rattle.sum_words.specs.System.{system_arguments_state};

use crate::command_run::command;
use crate::standard_input::standard_input;
use std::alloc::Allocator;
use std::io::{Read, Write};
use std::os::fd::AsFd;
use std::rt;
use sum_engine::Streams;
use sum_engine::laws::told_agree;
use sum_lines::FromWrite;
use sum_sources::{Files, FromRead, WithStdin};
use sum_words::SystemArguments;

/// The streams over standard input, files and both outputs that the system gives.
pub type SystemStreams<F, I, O, E> = Streams<
    WithStdin<FromRead<I>, Files<F>>,
    FromWrite<O>,
    FromWrite<E>,
>;

/// How a call of the program ended: its exit status, and the arguments and streams as they are then.
#[derive(Debug, Drop)]
pub struct Finished<G, S> {
    pub status: u8,
    pub arguments: G,
    pub streams: S,
}

/// Does what [`command`] does with the arguments that `env` has, over this standard input, the files that `files` opens
/// and these outputs. Nothing is read, opened or written before.
pub fn program<A, R, F, I, O, E>(
    alloc: A,
    env: R,
    files: F,
    stdin: I,
    out: O,
    err: E,
) -> Finished<SystemArguments<R>, SystemStreams<F, I, O, E>>
where
    A: Allocator + Copy,
    R: rt::Env,
    F: rt::Files + Drop,
    I: Read + AsFd + Drop,
    O: Write,
    E: Write,
    // The behavior of every list of arguments that agrees with what was given, in every world that agrees with what was
    // read.
    ensures behavior { let start = fresh_streams result.streams.inputs.told (O.contents out) (E.contents err) in
        ProgramPerforms (system_arguments_state result.arguments) start result.streams result.status }
    // Standard input is given once: in some world that agrees, each later opening of `-` gives an empty content.
    ensures once { (w : World) × Agrees w result.streams.inputs
        × ((k : ℕ) → w.answer (codes "-") (suc k) ≡ Ok empty_content) }

    // One way: the status is 0 only if no call of either output failed.
    ensures no_failures { result.status ≡ 0 → failures_of result.streams.outputs ≡ (0, 0) }
    // The status is 0 only if everything that was opened was read to its end; nothing was read further.
    ensures reads { All (ReadsFile (result.status ≡ 0)) result.streams.inputs.openings }
{
    let mut arguments = SystemArguments::new(env);
    let mut streams = Streams::new(
        WithStdin::new(standard_input(stdin), Files::new(files)),
        FromWrite::new(out),
        FromWrite::new(err),
    );
    let status = command(alloc, &mut arguments, &mut streams);
    told_agree(&streams.inputs);
    Finished {
        status,
        arguments,
        streams,
    }
}
