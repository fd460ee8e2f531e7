//! `LineReader`.
use crate::goes_on::TwoParts;
use crate::rest::line_past_header;
use linked_list_allocator::LocalHeap;
use std::alloc::{Allocator, Global};
use std::process::Abort;
use std::test::Fail;
use sum_sources::{Ending, Fault, Input, LineReader, LineStop, Next, Phase, Told};

// Five lines, and the same lines joined.
const FIVE: [&[u8]; 5] = [
    b"900150983cd24fb0d6963f7d28e17f72  a",
    b"#c",
    b"junk",
    b"900150983cd24fb0d6963f7d28e17f72 *x",
    b"900150983cd24fb0d6963f7d28e17f72  e",
];

const JOINED: &[u8] = b"900150983cd24fb0d6963f7d28e17f72  a\n#c\njunk\n\
    900150983cd24fb0d6963f7d28e17f72 *x\n900150983cd24fb0d6963f7d28e17f72  e\n";

// The same line twice, of which a newline ends only the first.
const TWICE: &[u8] = b"900150983cd24fb0d6963f7d28e17f72  a\n900150983cd24fb0d6963f7d28e17f72  a";

// Checks that the reader's next line is this one. It has no contract, so that no proof computes it.
fn gives<A: Allocator>(
    rt: &impl Abort,
    reader: &mut LineReader<impl Input>,
    line: &mut Vec<u8, A>,
    want: &[u8],
) {
    assert_eq!(rt; reader.next_line(line), Ok(Next::Line));
    assert_eq!(rt; line.as_slice(), want);
}

// There is no next line, for this reason, and that doesn't change.
fn ends<A: Allocator>(
    rt: &impl Abort,
    reader: &mut LineReader<impl Input>,
    line: &mut Vec<u8, A>,
    end: Result<Next, LineStop>,
) {
    for _ in 0..3 {
        assert_eq!(rt; reader.next_line(line), end);
    }
}

// Asserts how many lines were returned, how many bytes were read, and how far the input was read.
fn is_at(rt: &impl Abort, reader: LineReader<TwoParts>, lines: usize, place: usize, phase: Phase) {
    assert!(rt; (reader.lines(), reader.taken()) == (lines as u64, place as u64));
    assert_eq!(rt; reader.into_inner().phase(), phase);
}

// Asserts that a reader returns just these lines and then the ending, and has read no further, if its input has this
// ending after that many bytes and then goes on with the others.
fn reads(
    rt: &(impl Abort + AllocGlobal),
    content: &[u8],
    (place, ending): (usize, Ending),
    lines: &[&[u8]],
) {
    let end = match ending {
        Ending::Whole => Ok(Next::NoMore),
        Ending::Broken(fault) => Err(LineStop::Fault(fault)),
    };
    for piece in [1, 3, 8192] {
        let mut line = Vec::new(rt.alloc());
        let mut reader = LineReader::new(TwoParts::new(content, place, ending, piece));
        for want in lines {
            gives(rt, &mut reader, &mut line, want);
        }
        ends(rt, &mut reader, &mut line, end);
        is_at(rt, reader, lines.len(), place, Phase::Ended(ending));
    }
}

#[test]
fn lines(rt: HostRuntime) {
    let other = Ending::Broken(Fault::Other);
    reads(&rt, JOINED, (116, Ending::Whole), &FIVE);
    reads(&rt, FIVE[0], (35, Ending::Whole), &FIVE[..1]);
    reads(&rt, TWICE, (71, other), &FIVE[..1]);
    for (place, ending, lines) in [
        (0, Ending::Whole, &FIVE[..0]),
        (0, other, &FIVE[..0]),
        (35, Ending::Whole, &FIVE[..1]),
        (35, other, &FIVE[..0]),
        (36, Ending::Whole, &FIVE[..1]),
        (36, other, &FIVE[..1]),
        (43, Ending::Whole, &FIVE[..3]),
        (43, other, &FIVE[..2]),
    ] {
        reads(&rt, JOINED, (place, ending), lines);
    }
}

// A line "one" and the start of another, of this many bytes in all. It has no contract, so that no proof computes them.
fn two_lines(alloc: Global, len: usize) -> Result<Vec<u8>, Fail> {
    let mut content = Vec::from_slice(alloc, b"one\n")?;
    content.resize(len, b'x')?;
    Ok(content)
}

#[test]
fn lines_past_header(rt: HostRuntime) -> Result<(), Fail> {
    let mut line = Vec::new(rt.alloc());
    let input = Told::new(b"a: one\ntwo\n", Ending::Whole, 8192);
    let mut reader = line_past_header(input, &mut line).ok_or("short")?;
    assert_eq!(rt; line.as_slice(), b"one".as_slice());
    gives(&rt, &mut reader, &mut line, b"two");
    ends(&rt, &mut reader, &mut line, Ok(Next::NoMore));
    Ok(())
}

// The heap has room for the first line and none for the second.
#[test]
fn memory_refused(rt: HostRuntime) -> Result<(), Fail> {
    let content = two_lines(rt.alloc(), 5004)?;
    let heap = LocalHeap::new(rt.alloc(), 256)?;
    let mut line = Vec::new(&heap);
    let mut reader = LineReader::new(Told::new(&content, Ending::Whole, 8192));
    gives(&rt, &mut reader, &mut line, b"one");
    ends(&rt, &mut reader, &mut line, Err(LineStop::Memory));
    assert!(rt; reader.lines() == 1);
    Ok(())
}
