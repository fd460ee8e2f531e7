//! Callers with standard input beside a source of files.
ghost use Rattle.std.specs.Prelude.{◌≡◌, ◌==◌, ◌+◌, IsTrue, false, codes, OnOk};
ghost use Rattle.sum_engine.specs.Execution.{opened_names};
ghost use Rattle.sum_sources.specs.inputs.Stdin.{is_untaken};
ghost use Rattle.sum_sources.specs.sources.{Source.times, WithStdin.is_dash, WithStdinView.stdin_in};

use std::alloc::Allocator;
use sum_engine::laws::told_agree;
use sum_engine::{CheckSettings, Settings, Stop, Streams, check_one, generate_one};
use sum_lines::Sink;
use sum_sources::laws::stdin_is_taken;
use sum_sources::{Input, Source, WithStdin};

/// Hashes a name, and returns the source. A name other than `-` leaves standard input as it was, even if the call
/// stops.
pub fn hash_with_stdin<'a, I: Input + Drop, S: Source, O: Sink, E: Sink>(
    settings: &Settings,
    tool: &str,
    name: &[u8],
    streams: &'a mut Streams<WithStdin<I, S>, O, E>,
) -> (Result<bool, Stop>, &'a WithStdin<I, S>)
    // The state of inputs shows only openings: it was untaken before if and only if `-` hadn't been opened.
    ensures { is_dash name.now ≡ false → is_untaken (stdin_in result.1.now)
        ≡ (times (codes "-") (opened_names streams.old.inputs) == 0) }
{
    let result = generate_one(settings, tool, name, streams);
    told_agree(&streams.inputs);
    let inputs = &streams.inputs.source;
    stdin_is_taken(inputs);
    (result, inputs)
}

/// Checks a manifest. If it is standard input, `-`, the call opens that once, unless it stops: not even a line that
/// names `-` opens it again.
pub fn check_once<A: Allocator + Copy, S: Source, O: Sink, E: Sink>(
    alloc: A,
    settings: CheckSettings,
    tool: &str,
    name: &[u8],
    streams: &mut Streams<S, O, E>,
) -> Result<bool, Stop>
    ensures { IsTrue (is_dash name.now)
        → OnOk result (times (codes "-") (opened_names streams.new.inputs)
        ≡ times (codes "-") (opened_names streams.old.inputs) + 1) }
{
    let result = check_one(alloc, settings, tool, name, streams);
    told_agree(&streams.inputs);
    result
}
