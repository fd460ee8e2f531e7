//! Files with more bytes after a fault or an end, and a name that is another file when it is opened again.
use crate::streams::{Known, assert_wrote, check, generate, known, plain};
use std::alloc::Global;
use std::process::Abort;
use std::test::Fail;
use sum_sources::{Ending, Fault, NoRoom};
use sum_sources_tests::goes_on::{InTurn, TwoParts};

const BROKEN: Ending = Ending::Broken(Fault::Denied);

// A manifest that lists `a`, which holds "abc", and the empty `e` (RFC 1321).
const MANIFEST: &[u8] =
    b"900150983cd24fb0d6963f7d28e17f72  a\nd41d8cd98f00b204e9800998ecf8427e  e\n";

// Which of the files is cut, after how many bytes, and by which ending. The other bytes follow that.
type Cut = (usize, usize, Ending);

type Stage<'a> = Known<TwoParts<'a>, InTurn<'a, Global>>;

// Files of these contents, in the order of opening, none of which is standard input.
fn stage<'a>(
    alloc: Global,
    contents: &[&'a [u8]],
    (number, place, ending): Cut,
) -> Result<Stage<'a>, NoRoom> {
    let mut source = InTurn::new(alloc, 36);
    for (i, content) in contents.iter().enumerate() {
        if i == number {
            source.add(content, place, ending)?;
        } else {
            source.add(content, content.len(), Ending::Whole)?;
        }
    }
    Ok(known(TwoParts::new(b"", 0, Ending::Whole, 1), source))
}

// Asserts that this was written, and how many files were opened, closed at their end and closed at their fault.
fn assert_as(rt: &impl Abort, streams: &Stage, (out, err): (&str, &str), counts: (u64, u64, u64)) {
    assert_wrote(rt, streams, out, err);
    assert_eq!(rt; streams.inputs.source.source().counts(), counts);
}

// No digest of what precedes a fault, none of what follows an end, and none of an earlier file of that name.
#[test]
fn hashing(rt: HostRuntime) -> Result<(), Fail> {
    let fault = "md5sum: a: Permission denied\n";
    let one = "900150983cd24fb0d6963f7d28e17f72  a\n";
    let two = "900150983cd24fb0d6963f7d28e17f72  a\nd41d8cd98f00b204e9800998ecf8427e  a\n";
    let contents: [&[u8]; 2] = [b"abcd", b""];
    for (count, ending, good, texts, counts) in [
        (1, BROKEN, false, ("", fault), (1, 0, 1)),
        (1, Ending::Whole, true, (one, ""), (1, 1, 0)),
        (2, Ending::Whole, true, (two, ""), (2, 2, 0)),
    ] {
        let mut streams = stage(rt.alloc(), &contents, (0, 3, ending))?;
        for _ in 0..count {
            assert!(rt; generate("a", &mut streams) == Ok(good));
        }
        assert_as(&rt, &streams, texts, counts);
    }
    Ok(())
}

// Checking the manifest, if it or one of the files that it lists is cut, writes these texts.
fn checks(
    rt: &(impl Abort + AllocGlobal),
    manifest: &[u8],
    cut: Cut,
    (out, err): (&str, &str),
    counts: (u64, u64, u64),
) -> Result<(), Fail> {
    let mut streams = stage(rt.alloc(), &[manifest, b"abc", b""], cut)?;
    let good = check(rt.alloc(), plain(), "l", &mut streams);
    assert_eq!(rt; good, Ok(err.is_empty()), "at {cut:?}");
    assert_as(rt, &streams, (out, err), counts);
    Ok(())
}

#[test]
fn checking(rt: HostRuntime) -> Result<(), Fail> {
    let (one, two) = ("a: OK\n", "a: OK\ne: OK\n");
    let fault = "md5sum: l: Permission denied\n";
    let no_a = "md5sum: a: Permission denied\n\
        md5sum: WARNING: 1 listed file could not be read\n";
    let no_e = "md5sum: e: Permission denied\n\
        md5sum: WARNING: 1 listed file could not be read\n";
    let wrong = "md5sum: WARNING: 1 computed checksum did NOT match\n";
    let unread_a = ("a: FAILED open or read\ne: OK\n", no_a);
    let unread_e = ("a: OK\ne: FAILED open or read\n", no_e);
    for (cut, texts, counts) in [
        ((0, 35, BROKEN), ("", fault), (1, 0, 1)),
        ((0, 71, BROKEN), (one, fault), (2, 1, 1)),
        ((0, 72, BROKEN), (two, fault), (3, 2, 1)),
        ((0, 36, Ending::Whole), (one, ""), (2, 2, 0)),
        ((0, 72, Ending::Whole), (two, ""), (3, 3, 0)),
        ((1, 0, BROKEN), unread_a, (3, 2, 1)),
        ((1, 3, BROKEN), unread_a, (3, 2, 1)),
        (
            (1, 2, Ending::Whole),
            ("a: FAILED\ne: OK\n", wrong),
            (3, 3, 0),
        ),
        ((2, 0, BROKEN), unread_e, (3, 2, 1)),
    ] {
        checks(&rt, MANIFEST, cut, texts, counts)?;
    }
    let twice = b"900150983cd24fb0d6963f7d28e17f72  a\n900150983cd24fb0d6963f7d28e17f72  a\n";
    let texts = ("a: OK\na: FAILED\n", wrong);
    checks(&rt, twice, (1, 3, Ending::Whole), texts, (3, 3, 0))
}
