//! Lists of words, and what is read of them.
use std::alloc::Global;
use std::process::Abort;
use std::test::Fail;
use sum_words::{
    CommandLine, NoRoom, Request, ToldArguments, Tool, Words, read_command_line, read_words,
};

/// The words of a line, separated by single spaces, followed by one of any bytes.
pub(crate) fn words_and(alloc: Global, line: &str, last: &[u8]) -> Result<Words<Global>, NoRoom> {
    let mut words = Words::new(alloc);
    for word in line.split(' ') {
        words.add(word)?;
    }
    words.add_bytes(last)?;
    Ok(words)
}

// Whether these are the words, in their order. It has no contract, so that a test knows no more of them than it sees.
fn are(words: &Words<Global>, wanted: &[&[u8]]) -> bool {
    words.iter().eq(wanted.iter().copied())
        && words.len() == wanted.len()
        && words.is_empty() == wanted.is_empty()
        && words.get(2) == wanted.get(2).copied()
        && words.get(wanted.len()).is_none()
}

// Whether these are the operands of words that ask for lines. It has no contract, as above.
fn are_operands(words: &Words<Global>, wanted: &[&[u8]]) -> bool {
    match read_words(Tool::Md5sum, words) {
        Ok(Request::Generate(_, operands)) => operands.eq(wanted.iter().copied()),
        _ => false,
    }
}

// An empty word is a word, and one may hold any bytes.
#[test]
fn words_of_any_bytes(rt: HostRuntime) -> Result<(), Fail> {
    let words = words_and(rt.alloc(), "--tag  a\0b\n", b"\xff")?;
    let wanted: [&[u8]; 4] = [b"--tag", b"", b"a\0b\n", b"\xff"];
    assert!(rt; are(&words, &wanted));
    assert!(rt; are_operands(&words, &wanted[1..]));
    Ok(())
}

// Whether the arguments ask for this tool on these words. It has no contract, as above.
fn invoke(alloc: Global, arguments: &[&[u8]], tool: Tool, words: &[&[u8]]) -> bool {
    match read_command_line(alloc, &mut ToldArguments::new(arguments)) {
        Ok(CommandLine::Invoke(found, all)) => found == tool && are(&all, words),
        _ => false,
    }
}

// There is room for a word of any length.
#[test]
fn command_lines(rt: HostRuntime) -> Result<(), Fail> {
    let long = vec![in rt.alloc(); 0xff; 102_401]?;
    let arguments: [&[u8]; 4] = [b"\xff", b"md5sum", b"\xff", &long];
    assert!(rt; invoke(rt.alloc(), &arguments, Tool::Md5sum, &arguments[2..]));
    let arguments: [&[u8]; 1] = [b"digests"];
    let line = read_command_line(rt.alloc(), &mut ToldArguments::new(&arguments));
    assert!(rt; matches!(line, Ok(CommandLine::UnknownTool)));
    Ok(())
}
