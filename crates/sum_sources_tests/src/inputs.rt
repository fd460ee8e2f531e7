//! Inputs: over readers that fail, in memory, and ones that go on after an end or a fault.
ghost use Rattle.std.specs.Prelude.{◌≡◌};
ghost use Rattle.sum_sources.specs.inputs.Input.{empty_reads};

use crate::goes_on::TwoParts;
use crate::rest::hash_past_header;
use digest_kinds::{Algo, Digest, Hasher, Kind, Md5Hasher, Sha256Hasher};
use std::fmt::Display;
use std::io::{self, ErrorKind, Read};
use std::process::Abort;
use std::test::Fail;
use sum_sources::{
    EBADF, Ending, Fault, FromRead, Input, LineStop, NoRoom, OpenFault, PIECE, Phase, Stdin, Told,
    hash_input, hash_input_with_buffer,
};

// A reader of an input. It fails with the error this often first, and then at each fault of the input.
#[derive(Drop)]
struct Reader<'a> {
    input: TwoParts<'a>,
    error: io::Error,
    left: u32,
}

impl<'a> Read for Reader<'a> {
    fn read(&mut self, buf: &mut [u8]) -> io::Result<usize> {
        if self.left > 0 {
            self.left -= 1;
            return Err(self.error);
        }
        match self.input.read(buf) {
            Ok(n) => Ok(n),
            Err(_) => Err(self.error),
        }
    }
}

// "abc", one byte per read, with this ending after this many.
fn abc(place: usize, ending: Ending) -> TwoParts<'static>
    ensures { (⟦<TwoParts<'static> as Input>⟧.state result).reads ≡ empty_reads }
{
    TwoParts::new(b"abc", place, ending, 1)
}

// The same through a reader.
fn abc_read(
    place: usize,
    ending: Ending,
    error: io::Error,
    left: u32,
) -> FromRead<Reader<'static>> {
    FromRead::new(Reader {
        input: abc(place, ending),
        error,
        left,
    })
}

const DENIED: Ending = Ending::Broken(Fault::Denied);

// Reads into four zero bytes. Asserts that the read returns `want`, that the first byte is then `first`, and that the
// others are still zero.
fn reads(rt: &impl Abort, input: &mut impl Input, want: Result<usize, Fault>, first: u8) {
    let mut buf = [0; 4];
    let found = input.read(&mut buf);
    assert_eq!(rt; found, want);
    assert_eq!(rt; buf, [first, 0, 0, 0]);
}

// The first read of a reader that fails this often with this error returns this. A fault isn't tried again by itself.
fn assert_first(rt: &impl Abort, left: u32, error: io::Error, first: Result<usize, Fault>) {
    let mut input = abc_read(3, Ending::Whole, error, left);
    if first.is_err() {
        reads(rt, &mut input, first, 0);
    }
    reads(rt, &mut input, Ok(1), b'a');
}

// Interruptions; an error goes by its number, and one without a number by its kind (errno(3) has Linux's numbers).
#[test]
fn errors(rt: HostRuntime) {
    for (left, kind, first) in [
        (999, ErrorKind::Interrupted, Ok(1)),
        (1000, ErrorKind::Interrupted, Err(Fault::Other)),
        (1, ErrorKind::NotFound, Err(Fault::NotFound)),
        (1, ErrorKind::PermissionDenied, Err(Fault::Denied)),
        (1, ErrorKind::WouldBlock, Err(Fault::Other)),
    ] {
        assert_first(&rt, left, io::Error::from(kind), first);
    }
    for (left, number, fault) in [
        (1000, 4, Fault::Other),
        (1, 2, Fault::NotFound),
        (1, 13, Fault::Denied),
        (1, 11, Fault::Os(11)),
        (1, 5, Fault::Other),
        (1, 18, Fault::Os(18)),
        (1, 41, Fault::Other),
        (1, 134, Fault::Other),
    ] {
        assert_first(&rt, left, io::Error::from_raw_os_error(number), Err(fault));
    }
}

// The input gives "abc", one byte per read, and its end; and this ending in between, after this many bytes.
fn goes_on(rt: &impl Abort, input: &mut impl Input, place: usize, ending: Ending) {
    let end = match ending {
        Ending::Whole => Ok(0),
        Ending::Broken(fault) => Err(fault),
    };
    for (number, byte) in [(0, b'a'), (1, b'b'), (2, b'c'), (3, 0), (4, 0)] {
        if number == place {
            reads(rt, input, end, 0);
        }
        let count = usize::from(byte > 0);
        reads(rt, input, Ok(count), byte);
    }
}

// Standard input, taken once and a second time.
fn first_or_later(rt: &impl Abort, place: usize, ending: Ending) {
    let mut stdin = Stdin::new(abc(place, ending));
    let mut given = stdin.take();
    let mut second = stdin.take();
    assert!(rt; second.read(&mut [0; 4]) == Ok(0));
    goes_on(rt, &mut given, place, ending);
    stdin.put_back(given);
    stdin.put_back(second);
}

// Neither a wrapper nor a reader's input reads again by itself, and a digest is that of the bytes before the end.
#[test]
fn inputs_that_go_on(rt: HostRuntime) {
    // By Python's hashlib: of no byte of "abc", of one, two and three.
    for (place, digits) in [
        (0, b"d41d8cd98f00b204e9800998ecf8427e"),
        (1, b"0cc175b9c0f1b6a831c399e269772661"),
        (2, b"187ef4436122d1cc2f40dc2b92f0eba0"),
        (3, b"900150983cd24fb0d6963f7d28e17f72"),
    ] {
        all_go_on(&rt, place, Ending::Whole, digits);
        all_go_on(&rt, place, DENIED, digits);
    }
    let mut stdin: Stdin<Told> = Stdin::closed();
    let mut closed = stdin.take();
    reads(&rt, &mut closed, Err(Fault::Os(EBADF)), 0);
    stdin.put_back(closed);
}

fn all_go_on(rt: &impl Abort, place: usize, ending: Ending, digits: &[u8]) {
    let error = io::Error::from(ErrorKind::PermissionDenied);
    first_or_later(rt, place, ending);
    goes_on(rt, &mut abc_read(place, ending, error, 0), place, ending);
    assert_hashed(rt, abc(place, ending), ending, digits);
}

// Asserts that an input with this ending has this digest, or none if it is broken, and that nothing more is read.
fn assert_hashed(rt: &impl Abort, mut input: TwoParts, ending: Ending, digits: &[u8]) {
    match hash_input(&mut input, Md5Hasher::new()) {
        Ok(digest) => {
            assert!(rt; Some(digest) == Digest::from_hex(digits));
            assert!(rt; ending == Ending::Whole);
        }
        Err(fault) => assert!(rt; ending == Ending::Broken(fault)),
    }
    assert!(rt; input.phase() == Phase::Ended(ending));
}

// The digest of a content in memory, by both functions. They agree.
fn hashed(
    rt: &impl Abort,
    content: &[u8],
    ending: Ending,
    piece: usize,
    buffer: &mut [u8; PIECE],
) -> Result<Digest, Fault> {
    let mut input = Told::new(content, ending, piece);
    let over = hash_input_with_buffer(&mut input, Sha256Hasher::new(), buffer);
    let result = hash_input(&mut Told::new(content, ending, piece), Sha256Hasher::new());
    assert!(rt; over == result, "{} in pieces of {piece}", content.len());
    result
}

// The digest of one update. It has no contract, so that no proof computes it.
fn of_one_update(mut hasher: impl Hasher + Drop, content: &[u8]) -> Option<Digest> {
    match hasher.try_update(content) {
        Ok(()) => Some(hasher.finish()),
        Err(_) => None,
    }
}

// The digest is that of one update, and of one call.
fn hashes(
    rt: &impl Abort,
    content: &[u8],
    piece: usize,
    buffer: &mut [u8; PIECE],
) -> Result<(), Fail> {
    let digest = hashed(rt, content, Ending::Whole, piece, buffer)?;
    let whole = of_one_update(Sha256Hasher::new(), content).ok_or("long")?;
    let len = content.len();
    assert!(rt; digest.same(&whole), "{len} in pieces of {piece}");
    assert!(rt; len < 100_000);
    assert!(rt; digest.same(&Kind::of(Algo::Sha256).digest(content)));
    Ok(())
}

// There is no digest if the content is broken.
fn breaks(rt: &impl Abort, content: &[u8], piece: usize, buffer: &mut [u8; PIECE]) {
    let found = hashed(rt, content, DENIED, piece, buffer);
    let len = content.len();
    assert!(rt;
        found.err() == Some(Fault::Denied),
        "{len} in pieces of {piece}"
    );
}

// The same holds for prefixes of this content. One buffer serves many inputs: nothing that an earlier one left in it is
// hashed.
fn starts(
    rt: &impl Abort,
    content: &[u8],
    piece: usize,
    buffer: &mut [u8; PIECE],
) -> Result<(), Fail> {
    for len in [16384, 8193, 8192, 8191, 0] {
        hashes(rt, content.get(..len).ok_or("short")?, piece, buffer)?;
    }
    for len in (0..=300).chain([9000]) {
        breaks(rt, content.get(..len).ok_or("short")?, piece, buffer);
    }
    Ok(())
}

#[test]
fn hashing(rt: HostRuntime) -> Result<(), Fail> {
    let mut buffer = [b'?'; PIECE];
    let content = vec![in rt.alloc(); 0xa5; 16384]?;
    for piece in [1, 127, 8191, 8192] {
        starts(&rt, &content, piece, &mut buffer)?;
    }
    Ok(())
}

// What follows the header "a: " has this digest. It has no contract, so that no proof computes it.
fn hashes_rest(rt: &impl Abort, content: &[u8], digits: &[u8]) {
    let mut input = Told::new(content, Ending::Whole, PIECE);
    let mut header = [0; 3];
    let digest = hash_past_header(&mut input, &mut header, Md5Hasher::new());
    assert!(rt; digest.ok() == Digest::from_hex(digits));
    assert_eq!(rt; header, *b"a: ");
}

// RFC 1321 has the digests of "abc" and of nothing.
#[test]
fn hashing_past_header(rt: HostRuntime) {
    hashes_rest(&rt, b"a: abc", b"900150983cd24fb0d6963f7d28e17f72");
    hashes_rest(&rt, b"a: ", b"d41d8cd98f00b204e9800998ecf8427e");
}

// The value is displayed as this text.
fn is_shown(rt: &(impl Abort + AllocGlobal), value: &impl Display, text: &str) -> Result<(), Fail> {
    assert_eq!(rt; value.to_string(rt.alloc())?.as_str(), text);
    Ok(())
}

// A fault has this text, and so has what it becomes where a file is opened and where a line is read.
fn has_text(rt: &(impl Abort + AllocGlobal), fault: Fault, text: &str) -> Result<(), Fail> {
    assert_eq!(rt; fault.text(), text);
    is_shown(rt, &fault, text)?;
    is_shown(rt, &OpenFault::Fault(fault), text)?;
    is_shown(rt, &LineStop::Fault(fault), text)
}

const TEXTS: [(Fault, &str); 8] = [
    (Fault::NotFound, "No such file or directory"),
    (Fault::Denied, "Permission denied"),
    (Fault::Os(1), "Operation not permitted"),
    (Fault::Os(116), "Stale file handle"),
    (Fault::Os(133), "Memory page has hardware error"),
    (Fault::Os(134), "Input/output error"),
    (Fault::Os(-1), "Input/output error"),
    (Fault::Other, "Input/output error"),
];

#[test]
fn texts(rt: HostRuntime) -> Result<(), Fail> {
    for (fault, text) in TEXTS {
        has_text(&rt, fault, text)?;
    }
    is_shown(&rt, &OpenFault::Memory, "memory exhausted")?;
    is_shown(&rt, &LineStop::Memory, "memory exhausted")?;
    is_shown(&rt, &NoRoom, "memory exhausted")
}
