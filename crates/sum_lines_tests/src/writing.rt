//! Worked examples of lines that are written, and of names that are read back.

use crate::calls::{flush, known_sink, put, spell};
use digest_kinds::{Algo, Digest, Kind};
use std::alloc::Global;
use std::process::Abort;
use std::test::Fail;
use sum_lines::{
    Buffered, Mode, Part, SinkFault, Style, ToldSink, mark_and_name, needs_escape, put_escaped,
    put_line, put_number, put_parts, unescape_in,
};

const TEXT: Style = Style {
    mode: Mode::Text,
    zero: false,
};

const BINARY: Style = Style {
    mode: Mode::Binary,
    zero: false,
};

const TAG: Style = Style {
    mode: Mode::Tag,
    zero: false,
};

const ZERO: Style = Style {
    mode: Mode::Text,
    zero: true,
};

// What a line is made of.
#[derive(Drop)]
struct Entry<'a> {
    style: Style,
    kind: Kind,
    digest: Digest,
    name: &'a [u8],
}

// Writes the line of the entry, and flushes it. No kind has a line of a digest of another length.
fn put_entry(sink: &mut Buffered<ToldSink<256>>, entry: &Entry) -> Result<(), SinkFault> {
    if entry.digest.as_slice().len() != entry.kind.len() {
        return Err(SinkFault);
    }
    put_line(sink, entry.style, entry.kind, entry.name, &entry.digest)?;
    flush(sink)
}

// Whether a sink that stops after this many bytes has that much of the line, and gives no fault only if it has all of
// it.
fn stops(stop: usize, entry: &Entry, line: &[u8]) -> bool {
    let mut sink = known_sink(stop);
    let written = put_entry(&mut sink, entry).is_ok();
    written == (stop == line.len()) && line.get(..stop) == Some(sink.get_ref().bytes())
}

// Whether the same holds for each number of bytes up to the line's length.
fn is_line(entry: &Entry, line: &[u8]) -> bool {
    let mut all = true;
    for stop in 0..=line.len() {
        all = all && stops(stop, entry, line);
    }
    all
}

// A worked example: the style, the digits and the name, and the line that they make.
type Example<'a> = (Style, &'a str, &'a [u8], &'a str);

fn check_example(
    rt: &(impl Abort + AllocGlobal),
    kind: Kind,
    (style, digits, name, line): Example,
) -> Result<(), Fail> {
    let digits = spell(rt.alloc(), digits)?;
    let line = spell(rt.alloc(), line)?;
    let entry = Entry {
        style,
        kind,
        digest: Digest::from_hex(digits.as_bytes()).ok_or("digits")?,
        name,
    };
    assert!(rt; is_line(&entry, line.as_bytes()), "{line}");
    Ok(())
}

fn check(rt: &(impl Abort + AllocGlobal), kind: Kind, examples: &[Example]) -> Result<(), Fail> {
    for example in examples {
        check_example(rt, kind, *example)?;
    }
    Ok(())
}

const OF_MD5: &[Example] = &[
    (TEXT, "$M", b"a", "$M  a\n"),
    (TEXT, "$E", b"e", "$E  e\n"),
    (BINARY, "$M", b"a", "$M *a\n"),
    (TEXT, "$M", b"q\\\nz", "\\$M  q\\\\\\nz\n"),
    (ZERO, "$M", b"q\\\nz", "$M  q\\\nz\0"),
    (TEXT, "$M", b"a\rb", "\\$M  a\\rb\n"),
    (ZERO, "$M", b"a\rb", "$M  a\rb\0"),
    (TEXT, "$M", b"\\\\", "\\$M  \\\\\\\\\n"),
    (TEXT, "$M", b"", "$M  \n"),
    (TEXT, "$M", b"\r", "\\$M  \\r\n"),
    (TAG, "$M", b"a", "MD5 (a) = $M\n"),
];

const OF_BLAKE2B_256: &[Example] = &[
    (TEXT, "$B", b"e", "$B  e\n"),
    (TAG, "$B", b"e", "BLAKE2b-256 (e) = $B\n"),
];

const OF_BLAKE2B: &[Example] = &[(TAG, "$L", b"e", "BLAKE2b (e) = $L\n")];

#[test]
fn lines(rt: HostRuntime) -> Result<(), Fail> {
    check(&rt, Kind::of(Algo::Md5), OF_MD5)?;
    check(&rt, Kind::blake2b_bits(256)?, OF_BLAKE2B_256)?;
    check(&rt, Kind::blake2b_bits(0)?, OF_BLAKE2B)
}

// Whether the bytes after the first are read back as this name, or are no escaped name. The first stays as it is.
fn is_read_back(alloc: Global, escaped: &str, want: Option<&str>) -> Result<bool, Fail> {
    let mut line = escaped.as_bytes().to_vec(alloc)?;
    line.insert(0, b'x')?;
    let read = unescape_in(&mut line, 1);
    Ok(match want {
        Some(want) => read && line.as_slice() == want.as_bytes(),
        None => !read && line.starts_with(b"x"),
    })
}

const ESCAPED_NAMES: &[(&str, Option<&str>)] = &[
    ("", Some("x")),
    ("\\n", Some("x\n")),
    ("\\r", Some("x\r")),
    ("q\\\\\\nz", Some("xq\\\nz")),
    ("\\", None),
    ("\\x", None),
    ("\n", None),
    ("\r", None),
];

#[test]
fn escaped_names_are_read_back(rt: HostRuntime) -> Result<(), Fail> {
    for (escaped, want) in ESCAPED_NAMES {
        assert!(rt; is_read_back(rt.alloc(), escaped, *want)?, "{escaped}");
    }
    Ok(())
}

// Writes parts of each sort, and then a name and numbers by calls of their own.
fn put_all_parts(sink: &mut Buffered<ToldSink<256>>) -> Result<(), SinkFault> {
    let (mark, name) = mark_and_name(b"\n");
    put_parts(
        sink,
        &[
            Part::Bytes(mark),
            name,
            Part::Bytes(b"a\n"),
            Part::Number(7),
        ],
    )?;
    put_escaped(sink, b"\\a\n\rb")?;
    for number in [0, 10, u64::MAX] {
        put_number(sink, number)?;
        put(sink, b" ")?;
    }
    flush(sink)
}

#[test]
fn parts_of_texts(rt: HostRuntime) {
    let mut sink = known_sink(256);
    assert_eq!(rt; put_all_parts(&mut sink), Ok(()));
    let text = b"\\\\na\n7\\\\a\\n\\rb0 10 18446744073709551615 ".as_slice();
    assert_eq!(rt; sink.get_ref().bytes(), text);
    assert!(rt; needs_escape(b"a\r") && !needs_escape(b"a b\tn\0\x7f"));
}
