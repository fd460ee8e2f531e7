//! What no contract says of sinks: when a real writer's interruptions, refusals and flushes become a fault, and how
//! often it is called.

use crate::calls::{flush, offer, put};
use std::io::{self, ErrorKind, Write};
use std::ops::Range;
use std::process::Abort;
use sum_lines::{Buffered, FromWrite, Sink, SinkFault};

// A writer that accepts at most this many bytes of a piece. Its writes with these numbers fail with this error, and so
// does each flush unless the error is an interruption.
#[derive(Drop)]
struct Writer {
    most: usize,
    fails: Range<u32>,
    kind: ErrorKind,
    // How often each call was made, how many bytes were offered to it in all, and which it accepted.
    writes: u32,
    offered: usize,
    flushes: u32,
    bytes: Vec<u8>,
}

impl Write for Writer {
    fn write(&mut self, buf: &[u8]) -> io::Result<usize> {
        let number = self.writes;
        self.writes = number.saturating_add(1);
        self.offered = self.offered.saturating_add(buf.len());
        if self.fails.contains(&number) {
            return Err(self.kind.into());
        }
        self.bytes.write(&buf[..buf.len().min(self.most)])
    }

    fn flush(&mut self) -> io::Result<()> {
        self.flushes = self.flushes.saturating_add(1);
        if self.kind == ErrorKind::Interrupted {
            Ok(())
        } else {
            Err(self.kind.into())
        }
    }
}

fn writer_of(rt: &impl AllocGlobal, most: usize, fails: Range<u32>, kind: ErrorKind) -> Writer {
    Writer {
        most,
        fails,
        kind,
        writes: 0,
        offered: 0,
        flushes: 0,
        bytes: Vec::new(rt.alloc()),
    }
}

// Whether the first write of a piece by a sink over the writer returns this, after this many calls of the writer, to
// which this many bytes in all were offered. A fault isn't tried again by itself; the next write tries again.
fn is_first(
    writer: &mut Writer,
    piece: &[u8],
    answer: Result<usize, SinkFault>,
    calls: (u32, usize),
) -> bool {
    let first = offer(&mut FromWrite::new(&mut *writer), piece);
    let called = (writer.writes, writer.offered);
    let mut again = Ok(piece.len());
    if first.is_err() && writer.most > 0 {
        again = offer(&mut FromWrite::new(&mut *writer), piece);
    }
    (first, again, called, writer.flushes) == (answer, Ok(piece.len()), calls, 0)
}

#[test]
fn a_piece_is_one_call_of_a_writer(rt: HostRuntime) {
    let interrupted = ErrorKind::Interrupted;
    for (fails, kind, answer, calls) in [
        (0..0, interrupted, Ok(3), (1, 3)),
        (0..999, interrupted, Ok(3), (1000, 3000)),
        (0..1000, interrupted, Err(SinkFault), (1000, 3000)),
        (0..1, ErrorKind::WouldBlock, Err(SinkFault), (1, 3)),
        (0..1, ErrorKind::BrokenPipe, Err(SinkFault), (1, 3)),
    ] {
        let mut writer = writer_of(&rt, 3, fails, kind);
        assert!(rt; is_first(&mut writer, b"abc", answer, calls));
    }
    let long = [b'x'; 100_000];
    for (most, piece, answer, calls) in [
        (usize::MAX, long.as_slice(), Ok(100_000), (1, 100_000)),
        (40_000, &long, Ok(40_000), (1, 100_000)),
        (0, b"abc", Err(SinkFault), (1, 3)),
        (0, b"", Ok(0), (0, 0)),
    ] {
        let mut writer = writer_of(&rt, most, 0..0, interrupted);
        assert!(rt; is_first(&mut writer, piece, answer, calls));
    }
}

// Whether a flush of a buffer over the writer returns this answer, and flushes the writer once.
fn is_asked_once(writer: &mut Writer, answer: Result<(), SinkFault>) -> bool {
    let mut sink = Buffered::new(FromWrite::new(writer));
    let answers = [put(&mut sink, b"abc"), flush(&mut sink)];
    let writer = sink.into_inner().into_inner();
    let counts = (writer.writes, writer.offered, writer.flushes);
    answers == [Ok(()), answer]
        && counts == (2, 4, 1)
        && writer.bytes.as_slice() == b"abc".as_slice()
}

#[test]
fn a_flush_is_asked_once(rt: HostRuntime) {
    for (kind, answer) in [
        (ErrorKind::Interrupted, Ok(())),
        (ErrorKind::StorageFull, Err(SinkFault)),
    ] {
        let mut writer = writer_of(&rt, 2, 0..0, kind);
        assert!(rt; is_asked_once(&mut writer, answer));
        // A buffer that holds nothing is flushed, too.
        let mut buffer = Buffered::new(FromWrite::new(writer));
        assert_eq!(rt; flush(&mut buffer), answer);
    }
}

// The answers of a buffer over the writer: to two pieces and a flush, and to one more.
fn put_twice(writer: &mut Writer) -> [Result<(), SinkFault>; 5] {
    let mut sink = Buffered::new(FromWrite::new(writer));
    [
        put(&mut sink, b"abc"),
        put(&mut sink, b"de\n"),
        flush(&mut sink),
        put(&mut sink, b"f"),
        flush(&mut sink),
    ]
}

// Whether the writer gets these bytes in this many writes, the first flush returns this, and every other call succeeds.
fn is_one_piece(
    writer: &mut Writer,
    answer: Result<(), SinkFault>,
    bytes: &[u8],
    writes: u32,
) -> bool {
    let answers = put_twice(writer);
    answers == [Ok(()), Ok(()), answer, Ok(()), Ok(())]
        && writer.bytes.as_slice() == bytes
        && writer.writes == writes
}

// It is one write when it is flushed. A fault in the middle loses what is still buffered, and nothing is tried again.
#[test]
fn what_is_buffered_is_one_piece(rt: HostRuntime) {
    for (most, fails, answer, bytes, writes) in [
        (8192, 0..0, Ok(()), b"abcde\nf".as_slice(), 2),
        (4, 0..0, Ok(()), b"abcde\nf", 3),
        (4, 1..1001, Err(SinkFault), b"abcdf", 1002),
    ] {
        let mut writer = writer_of(&rt, most, fails, ErrorKind::Interrupted);
        assert!(rt;
            is_one_piece(&mut writer, answer, bytes, writes),
            "{writes}"
        );
    }
}
