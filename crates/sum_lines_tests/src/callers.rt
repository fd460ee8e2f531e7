//! What callers know of sinks, and of a comment that is read.
ghost use Rattle.std.specs.Prelude.{◌≡◌, ◌≤◌, ◌<◌, ◌+◌, ◌++◌, Some, Ok, IfOk, OnOk, OnErr, IsTrue, codes};
ghost use Rattle.std.specs.Prelude.{length, take};

use digest_kinds::Algos;
use std::alloc::Allocator;
use std::io::Write;
use sum_lines::{
    Buffered, Form, FromWrite, Reading, Sink, SinkFault, ToldSink, put_all, read_line,
};

/// A sink in memory holds a text that it has room for, and no call has failed.
pub fn holds_text(text: &[u8]) -> ToldSink<64>
    requires { length text.now ≤ 64 }
    ensures bytes { result.state.output.written ≡ text.now }
    ensures failures { result.state.output.failures ≡ 0 }
{
    let mut sink = ToldSink::new(64);
    let _ = sink.write(text);
    sink
}

/// A sink in memory that is full fails again and again, also after a flush.
pub fn stays_full() -> ToldSink<8>
    ensures bytes { result.state.output.written ≡ codes "ab" }
    ensures failures { result.state.output.failures ≡ 2 }
{
    let mut sink = ToldSink::new(2);
    let _ = sink.write(b"abc");
    let _ = sink.write(b"c");
    let _ = sink.flush();
    let _ = sink.write(b"d");
    sink
}

/// A writer that is known to hold some bytes got the first ones of the piece after them, as many as were accepted.
pub fn first_bytes<W: Write>(writer: W, piece: &[u8]) -> (Result<usize, SinkFault>, W)
    requires { W.contents writer ≡ Some (codes "before ") }
    ensures { IfOk result.0 (λ n. W.contents result.1
        ≡ Some (codes "before " ++ take n piece.now)) }
{
    let mut sink = FromWrite::new(writer);
    let written = sink.write(piece);
    let _ = sink.flush();
    (written, sink.into_inner())
}

/// Writes a text to a buffer. If that succeeds, and the text isn't empty, some bytes are still buffered. If it fails,
/// the text wasn't empty, and the sink wrote fewer bytes than the text and what was buffered have together.
pub fn put<S: Sink>(sink: &mut Buffered<S>, text: &[u8]) -> Result<(), SinkFault>
    ensures buffered { OnOk result (0 < length text.now → 0 < length sink.new.buffered) }
    ensures nonempty { OnErr result (0 < length text.now) }
    ensures fewer { OnErr result (length sink.new.sink.output.written
        < length sink.old.sink.output.written + length sink.old.buffered + length text.now) }
{
    put_all(sink, text)
}

/// Writes nothing to a sink, which never fails.
pub fn write_nothing<S: Sink>(sink: &mut S) -> Result<usize, SinkFault>
    ensures { result ≡ Ok 0 }
{
    sink.write(&[])
}

/// A comment is still in the vector after it was read.
pub fn keeps_comments<A: Allocator>(algos: Algos, line: &mut Vec<u8, A>) -> bool
    ensures { IsTrue result → line.new.items ≡ line.old.items }
{
    matches!(read_line(algos, Form::Undecided, line).0, Reading::Ignored)
}
