//! The whole program, over known arguments.
ghost use Rattle.std.specs.Prelude.{IsTrue};

use super::{MISSING, source_of, spell, spell_all};
use digests::{command, put_not_read, put_stop, put_unknown};
use linked_list_allocator::LocalHeap;
use std::alloc::{Allocator, Global};
use std::io::{self, ErrorKind, Write};
use std::process::Abort;
use std::test::Fail;
use sum_engine::{Outputs, Stop, Streams};
use sum_lines::{Buffered, FromWrite, Sink, ToldSink};
use sum_sources::{Ending, Stdin, Told, ToldSource, WithStdin};
use sum_words::{ToldArguments, Tool};

// The program itself. It has no contract, so that its callers' proofs don't meet that of `command`.
fn status_of<A: Allocator + Copy, O: Sink, E: Sink>(
    heap: A,
    arguments: &[&[u8]],
    streams: &mut Streams<WithStdin<Told, ToldSource<Global>>, O, E>,
) -> u8 {
    command(heap, &mut ToldArguments::new(arguments), streams)
}

// Calls the program with these arguments, over the usual files, a list `l` and standard input, and these outputs.
// The words are in the memory of the heap. Both outputs afterwards, and the status.
fn call<A: Allocator + Copy, O: Sink + Drop, E: Sink + Drop>(
    alloc: Global,
    heap: A,
    arguments: &[&[u8]],
    out: O,
    err: E,
) -> Result<(O, E, u8), Fail>
    requires out { IsTrue (O.state out).flushed }
    requires err { IsTrue (E.state err).flushed }
{
    let list = [("l", ("$M  a\n", Ending::Whole))];
    let contents = spell_all(alloc, &list)?;
    let mut streams = Streams::new(
        WithStdin::new(
            Stdin::new(Told::new(b"abc", Ending::Whole, 2)),
            source_of(alloc, 100, &list, &contents)?,
        ),
        out,
        err,
    );
    let status = status_of(heap, arguments, &mut streams);
    let Outputs { out, err } = streams.outputs;
    Ok((out.into_inner(), err.into_inner(), status))
}

// An output in memory.
fn output() -> ToldSink<256>
    ensures { IsTrue result.state.flushed }
{
    ToldSink::new(256)
}

// The lines for both stops, for no tool and for no words.
fn put_lines() -> Result<ToldSink<256>, Fail> {
    let mut sink = Buffered::new(output());
    put_stop(&mut sink, Tool::Sha256sum, Stop::Write)?;
    put_stop(&mut sink, Tool::Sha256sum, Stop::Memory)?;
    put_unknown(&mut sink)?;
    put_not_read(&mut sink)?;
    sink.flush()?;
    Ok(sink.into_inner())
}

#[test]
fn lines(rt: HostRuntime) -> Result<(), Fail> {
    let lines = b"sha256sum: write error\n\
        sha256sum: memory exhausted\n\
        digests: unknown tool\n\
        digests: words not read\n"
        .as_slice();
    assert_eq!(rt; put_lines()?.bytes(), lines);
    Ok(())
}

// What a call writes on each output, and its status.
type Ends<'a> = (&'a [u8], &'a [u8], u8);

// Asserts how the program ends, if the words have the memory of this heap.
fn assert_ends<A: Allocator + Copy>(
    rt: &(impl Abort + AllocGlobal),
    heap: A,
    arguments: &[&[u8]],
    ends: Ends,
) -> Result<(), Fail> {
    let (out, err, status) = call(rt.alloc(), heap, arguments, output(), output())?;
    assert_eq!(rt; (out.bytes(), err.bytes(), status), ends, "{arguments:?}");
    Ok(())
}

#[test]
fn tools_and_words(rt: HostRuntime) -> Result<(), Fail> {
    let of_a = spell(rt.alloc(), "$M  a\n")?;
    let of_a = of_a.as_bytes();
    let unknown: Ends = (b"", b"digests: unknown tool\n", 1);
    let odd = b"md5sum: r\xe9sum\xe9: No such file or directory\n".as_slice();
    let examples: [(&[&[u8]], Ends); 6] = [
        (&[b"digests", b"md5sum", b"a"], (of_a, b"", 0)),
        (
            &[b"/usr/bin/md5sum", b"a", b"x"],
            (of_a, MISSING.as_bytes(), 1),
        ),
        (&[b"\xff/md5sum", b"r\xe9sum\xe9", b"a"], (of_a, odd, 1)),
        (&[], unknown),
        (&[b"digests"], unknown),
        (&[b"digests", b"shasum"], unknown),
    ];
    for (arguments, ends) in &examples {
        assert_ends(&rt, rt.alloc(), arguments, *ends)?;
    }
    Ok(())
}

// Whether there is room for the words on a heap of this many bytes: then the run is as with any memory,
// otherwise they aren't read.
fn is_read_within(
    rt: &(impl Abort + AllocGlobal),
    size: usize,
    lines: &[u8],
) -> Result<bool, Fail> {
    let arguments: [&[u8]; 4] = [b"md5sum", b"a", b"-", b"a"];
    let heap = LocalHeap::new(rt.alloc(), size)?;
    let (out, err, status) = call(rt.alloc(), &heap, &arguments, output(), output())?;
    let is_read = status == 0;
    let ends: Ends = if is_read {
        (lines, b"", 0)
    } else {
        (b"", b"digests: words not read\n", 1)
    };
    assert_eq!(rt; (out.bytes(), err.bytes(), status), ends, "{size} bytes");
    Ok(is_read)
}

// Each growth of the words in turn is refused, on heaps that are each a little larger.
#[test]
fn memory_for_words(rt: HostRuntime) -> Result<(), Fail> {
    let lines = spell(rt.alloc(), "$M  a\n$M  -\n$M  a\n")?;
    let mut read: usize = 0;
    for size in (0..800).step_by(16) {
        if is_read_within(&rt, size, lines.as_bytes())? {
            read = read.saturating_add(1);
        } else {
            assert_eq!(rt; read, 0, "{size} bytes");
        }
    }
    assert!(rt; read > 0 && read < 50);
    Ok(())
}

// A writer that takes everything, and counts its flushes, which may fail.
#[derive(Drop)]
struct Counted {
    fails: bool,
    flushes: u32,
}

impl Write for Counted {
    fn write(&mut self, buf: &[u8]) -> io::Result<usize> {
        Ok(buf.len())
    }

    fn flush(&mut self) -> io::Result<()> {
        self.flushes = self.flushes.saturating_add(1);
        if self.fails {
            Err(ErrorKind::PermissionDenied.into())
        } else {
            Ok(())
        }
    }
}

fn make_counted(fails: bool) -> FromWrite<Counted>
    ensures { IsTrue (⟦<FromWrite<Counted> as Sink>⟧.state result).flushed }
{
    FromWrite::new(Counted { fails, flushes: 0 })
}

// At the end standard error is flushed, and then standard output, even if nothing was written; a flush that fails is a
// write fault, whose line is flushed, too. No contract shows the flushes, since one of an output that holds nothing
// changes nothing that it tells.
#[test]
fn flushed_once_more(rt: HostRuntime) -> Result<(), Fail> {
    let silent: [&[u8]; 4] = [b"md5sum", b"-c", b"--status", b"l"];
    for (out_fails, err_fails, ends) in [
        (false, false, (0, 1, 1)),
        (true, false, (1, 1, 2)),
        (false, true, (1, 0, 2)),
    ] {
        let (out, err) = (make_counted(out_fails), make_counted(err_fails));
        let (out, err, status) = call(rt.alloc(), rt.alloc(), &silent, out, err)?;
        let flushes = (out.into_inner().flushes, err.into_inner().flushes);
        assert_eq!(rt; (status, flushes.0, flushes.1), ends);
    }
    Ok(())
}
