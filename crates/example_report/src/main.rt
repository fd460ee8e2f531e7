//! Prints the SHA-256 lines of two files, and between them a comment, which is a text of its own. Its status is 0 only
//! if both files could be hashed.
#![tactic(auto)]

use digest_kinds::{Algo, Kind};
use std::process::ExitCode;
use sum_engine::{Settings, Streams, generate_one};
use sum_lines::{Buffered, FromWrite, Mode, Part, Parts, Sink, SinkFault, Style, Text};
use sum_sources::Files;

struct Comment {
    done: u64,
}

impl Text for Comment {
    ghost use Rattle.std.specs.Prelude.{◌++◌, codes, decimal};

    ghost text = { λ comment. codes "# " ++ decimal comment.done ++ codes " of 2 files\n" };

    fn put<S: Sink>(&self, sink: &mut Buffered<S>) -> Result<(), SinkFault> {
        let done = Part::Number(self.done);
        Parts(&[Part::Bytes(b"# "), done, Part::Bytes(b" of 2 files\n")]).put(sink)
    }
}

fn main(rt: HostRuntime) -> anyhow::Result<ExitCode> {
    let (kind, mode) = (Kind::of(Algo::Sha256), Mode::Text);
    let style = Style { mode, zero: false };
    let (out, err) = (FromWrite::new(rt.stdout()), FromWrite::new(rt.stderr()));
    let mut streams = Streams::new(Files::new(rt), out, err);
    let settings = Settings { kind, style };
    let first = generate_one(&settings, "example_report", b"abc", &mut streams)?;
    streams.outputs.out.write(&Comment { done: 1 })?;
    let second = generate_one(&settings, "example_report", b"empty", &mut streams)?;
    Ok(ExitCode::from(u8::from(!(first && second))))
}
