//! The program `digests`: its `main` alone, which passes on what the system gives.
#![tactic(auto)]

use digests::program;
use std::process::ExitCode;

fn main(rt: HostRuntime) -> ExitCode {
    let ended = program(rt.alloc(), rt, rt, rt.stdin(), rt.stdout(), rt.stderr());
    ExitCode::from(ended.status)
}
