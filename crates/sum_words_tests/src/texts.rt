//! Names of tools, and the calls that write texts. The definitions have the texts, and the tests of the program spell
//! them.
use crate::words::words_and;
use std::alloc::Global;
use std::process::Abort;
use std::test::Fail;
use sum_lines::{Buffered, ToldSink};
use sum_words::{Tool, UnknownTool, Words, put_fault, put_help, put_version, read_words};

// Whether both ways of reading the name give this tool, or none. It has no contract, so that a test knows no more
// of it than it sees; the same goes for the functions below.
fn is_called(name: &str, tool: Option<Tool>) -> bool {
    Tool::from_word(name) == tool && name.parse() == tool.ok_or(UnknownTool)
}

// Whether this is the tool's name, `Display` writes it, and it names the tool.
fn is_named(alloc: Global, tool: Tool, name: &str) -> Result<bool, Fail> {
    let shown = format!(in alloc; "{tool}")?;
    Ok(tool.name() == name && shown.as_str() == name && is_called(name, Some(tool)))
}

#[test]
fn tools(rt: HostRuntime) -> Result<(), Fail> {
    for tool in Tool::ALL {
        assert!(rt; is_named(rt.alloc(), tool, tool.name())?, "{tool}");
    }
    assert!(rt; is_named(rt.alloc(), Tool::B2sum, "b2sum")?);
    for word in ["shasum", "", "md5sum "] {
        assert!(rt; is_called(word, None), "{word}");
    }
    Ok(())
}

// The help of a tool.
fn help_of(tool: Tool) -> Result<ToldSink<1024>, Fail> {
    let mut out = Buffered::new(ToldSink::new(1024));
    put_help(&mut out, tool)?;
    out.flush()?;
    Ok(out.into_inner())
}

// The version of a tool.
fn version_of(tool: Tool) -> Result<ToldSink<64>, Fail> {
    let mut out = Buffered::new(ToldSink::new(64));
    put_version(&mut out, tool)?;
    out.flush()?;
    Ok(out.into_inner())
}

#[test]
fn version(rt: HostRuntime) -> Result<(), Fail> {
    assert!(rt;
        version_of(Tool::Sha1sum)?
            .bytes()
            .starts_with(b"sha1sum (digests)")
    );
    Ok(())
}

#[test]
fn help(rt: HostRuntime) -> Result<(), Fail> {
    assert!(rt; help_of(Tool::B2sum)?.bytes().starts_with(b"Usage: b2sum "));
    Ok(())
}

// The lines that are written for the fault of these words.
fn lines_of_fault(tool: Tool, words: &Words<Global>) -> Result<ToldSink<256>, Fail> {
    let mut err = Buffered::new(ToldSink::new(256));
    match read_words(tool, words) {
        Ok(_) => return Err(Fail::from("no fault")),
        Err(fault) => put_fault(&mut err, tool, &fault)?,
    }
    err.flush()?;
    Ok(err.into_inner())
}

// Whether a text has this part.
fn has(text: &[u8], part: &[u8]) -> bool {
    for start in 0..text.len() {
        if text[start..].starts_with(part) {
            return true;
        }
    }
    false
}

// Asserts that the words of a line, followed by one of any bytes, have a fault whose lines show this part of them.
fn assert_shown(
    rt: &(impl Abort + AllocGlobal),
    tool: Tool,
    (line, last): (&str, &[u8]),
    shown: &[u8],
) -> Result<(), Fail> {
    let words = words_and(rt.alloc(), line, last)?;
    let found = lines_of_fault(tool, &words)?;
    assert!(rt; found.bytes().starts_with(tool.name().as_bytes()), "{line}");
    assert!(rt; has(found.bytes(), shown), "{line}");
    Ok(())
}

// For each fault: the words of a line, one more word, and what its text shows of them. What was typed is escaped.
const FAULTS: &[(&str, &str, &str)] = &[
    ("a", "--a\\b\nc\rd=e", "'--a\\\\b\\nc\\rd'"),
    ("a", "--st", "'--st'"),
    ("a", "--ta=1", "'--tag'"),
    ("a", "--len", "'--length'"),
    ("a", "-bl", "'l'"),
    ("a", "-\n", "'\\n'"),
    ("a -l", "\\\n", "'\\\\\\n'"),
    ("-l", "12", "'12'"),
    ("--tag", "-t", "--text"),
    ("-c --tag", "-z", "--zero"),
    ("-c", "--tag", "--tag"),
    ("-c", "-b", "--binary"),
    ("--strict", "--ignore-missing", "--ignore-missing"),
    ("--quiet -w", "--status", "--status"),
    ("--status", "-w", "--warn"),
    ("--status", "--quiet", "--quiet"),
    ("a", "--str", "--strict"),
];

#[test]
fn faults(rt: HostRuntime) -> Result<(), Fail> {
    for (line, last, shown) in FAULTS {
        assert_shown(&rt, Tool::B2sum, (line, last.as_bytes()), shown.as_bytes())?;
    }
    Ok(())
}

// The faults of a tool that only checks, one of them about bytes that aren't text.
#[test]
fn faults_of_anysum(rt: HostRuntime) -> Result<(), Fail> {
    assert_shown(&rt, Tool::Anysum, ("a", b"-\xff\\"), b"'-\xff\\\\'")?;
    assert_shown(&rt, Tool::Anysum, ("a", b"b"), b"--check")
}
