//! Writes the line of a name to an output in memory, and reads the name back.
#![tactic(auto)]

ghost use Rattle.digest_kinds.specs.{Bytes.LIMIT, Kind.message_digest};
ghost use Rattle.std.specs.Prelude.{◌<◌, false, length};
ghost use Rattle.sum_lines.specs.{writing.PutLine.digest_line};
ghost use Rattle.sum_lines.specs.sinks.GivesAll.{GivesAll};

use digest_kinds::{Algo, Algos, AnyHasher, Hasher, Kind};
use sum_lines::{
    DigestLine, Form, Mode, Output, Reading, Sink, SinkFault, Style, ToldSink, read_line,
};

/// Writes the line of a file of this name and content to an output.
fn write_line<S: Sink>(
    out: &mut Output<S>,
    kind: Kind,
    name: &[u8],
    content: &[u8],
) -> Result<(), SinkFault>
    requires { length content.now < LIMIT }
    ensures { GivesAll out.old out.new
        (digest_line (record { mode = Mode.Text; zero = false }) kind name.now (message_digest kind content.now))
        result }
{
    let mut hasher = AnyHasher::new(kind);
    hasher.update(content);
    let digest = &hasher.finish();
    let style = Style {
        mode: Mode::Text,
        zero: false,
    };
    out.write(&DigestLine {
        style,
        kind,
        name,
        digest,
    })
}

fn main(rt: HostRuntime) -> anyhow::Result<()> {
    let mut out = Output::new(ToldSink::<512>::new(512));
    write_line(&mut out, Kind::of(Algo::Sha256), b"odd\nname", b"abc")?;
    let mut line = Vec::new(rt.alloc());
    line.extend_from_slice(out.get_ref().bytes())?;
    line.pop();
    println!(rt; "{}", String::from_utf8_lossy(rt.alloc(), &line)?)?;
    let (reading, _) = read_line(Algos::One(Algo::Sha256), Form::Undecided, &mut line);
    if let Reading::Entry { start, stop, .. } = reading {
        let name = String::from_utf8_lossy(rt.alloc(), &line[start..stop])?;
        println!(rt; "{name:?}")?;
    }
    Ok(())
}
