//! Worked examples of lines that are read.

use crate::calls::spell;
use digest_kinds::{Algo, Algos};
use std::alloc::Global;
use std::process::Abort;
use std::test::Fail;
use sum_lines::{Form, Reading, read_line};

// What a line is to say: an entry with its name and the name's range.
#[derive(Clone, Copy)]
enum Want<'a> {
    Ignored,
    Bad,
    Entry(&'a str, usize, usize),
}

use Form::{Reversed, Standard, Undecided};
use Want::{Bad, Entry, Ignored};

// A worked example: the form before a line, the line, what it says, and the form with it.
type Example<'a> = (Form, &'a str, Want<'a>, Form);

// What the line says. There is no contract, so that tests don't know more than they see.
fn read(algos: Algos, form: Form, line: &mut Vec<u8>) -> (Reading, Form) {
    read_line(algos, form, line)
}

// Whether this is what was read of the line.
fn is_finding(want: Want, reading: &Reading, line: &[u8]) -> bool {
    match (want, reading) {
        (Ignored, Reading::Ignored) | (Bad, Reading::Bad) => true,
        (Entry(name, from, to), Reading::Entry { start, stop, .. }) => {
            (from, to) == (*start, *stop) && line.get(from..to) == Some(name.as_bytes())
        }
        _ => false,
    }
}

// Whether the digest of an entry is that of the text, in full.
fn has_digest(alloc: Global, reading: &Reading, algo: Algo, text: &str) -> Result<bool, Fail> {
    let Reading::Entry { kind, digest, .. } = reading else {
        return Ok(true);
    };
    let digits = format!(in alloc; "{digest}")?;
    let lower = text.to_ascii_lowercase(alloc)?;
    let full = 2 * kind.len() == digits.as_str().len();
    Ok(kind.algo() == algo && full && lower.as_str().contains(digits.as_str()))
}

// Whether the line of the example says this. The digest of an entry is that of the line, in full.
fn holds(alloc: Global, algo: Algo, example: &Example) -> Result<bool, Fail> {
    let (before, text, want, after) = *example;
    let text = spell(alloc, text)?;
    let mut line = text.as_bytes().to_vec(alloc)?;
    let (reading, form) = read(Algos::One(algo), before, &mut line);
    let found = form == after && is_finding(want, &reading, &line);
    Ok(found && has_digest(alloc, &reading, algo, text.as_str())?)
}

fn check(rt: &(impl Abort + AllocGlobal), algo: Algo, examples: &[Example]) -> Result<(), Fail> {
    for example in examples {
        assert!(rt; holds(rt.alloc(), algo, example)?, "{}", example.1);
    }
    Ok(())
}

const PLAIN_LINES: &[Example] = &[
    (Undecided, "$M  a", Entry("a", 34, 35), Standard),
    (Undecided, "$M a", Entry("a", 33, 34), Reversed),
    (Undecided, "  $M  a", Entry("a", 36, 37), Standard),
    (Undecided, "$M\t a", Entry("a", 34, 35), Standard),
    (Undecided, "$M  ", Entry(" ", 33, 34), Reversed),
    (Undecided, "$M *", Entry("*", 33, 34), Reversed),
    (Undecided, "$M ", Bad, Undecided),
    (Undecided, "\\$M  a", Entry("a", 35, 36), Standard),
    (Undecided, "\\$M  q\\x", Bad, Standard),
    (Undecided, "$M  a\0", Bad, Standard),
    (Undecided, "\\$M  a\rb", Bad, Standard),
    (Undecided, "$M  a\rb", Entry("a\rb", 34, 37), Standard),
    // lines of whole manifests
    (
        Undecided,
        "900150983CD24FB0D6963F7D28E17F72  a",
        Entry("a", 34, 35),
        Standard,
    ),
    (Reversed, "$M  a", Entry(" a", 33, 35), Reversed),
    (Standard, "$M a", Bad, Standard),
    (
        Undecided,
        "\\$M  q\\\\\\nz",
        Entry("q\\\nz", 35, 39),
        Standard,
    ),
    (Standard, "\\$M  q\\x", Bad, Standard),
    (Standard, "\\$M  q\\", Bad, Standard),
    (Standard, "\\$M  a\\r", Entry("a\r", 35, 37), Standard),
    (Standard, "$M  q\\x", Entry("q\\x", 34, 37), Standard),
    (Standard, "\\", Bad, Standard),
];

#[test]
fn plain_lines(rt: HostRuntime) -> Result<(), Fail> {
    check(&rt, Algo::Md5, PLAIN_LINES)
}

const LINES_OF_MD5: &[Example] = &[
    (Undecided, "MD5 (a) = $M", Entry("a", 5, 6), Undecided),
    (Undecided, "MD5 (a)) = $M", Entry("a)", 5, 7), Undecided),
    (
        Undecided,
        "\\MD5 (a\\nb) = $M",
        Entry("a\nb", 6, 9),
        Undecided,
    ),
    (Undecided, "MD5(a)= $M", Entry("a", 4, 5), Undecided),
    (Undecided, "MD5 () = $M", Bad, Undecided),
    (Undecided, "MD5  (a) = $M", Bad, Undecided),
    (Undecided, "md5 (a) = $M", Bad, Undecided),
    (Undecided, "MD5 (a) = $M ", Bad, Undecided),
];

const LINES_OF_BLAKE2B: &[Example] = &[
    (Undecided, "BLAKE2b-08 (e) = 00", Bad, Undecided),
    (Undecided, "BLAKE2b-520 (e) = $B", Bad, Undecided),
    (Undecided, "BLAKE2b-256 (e) = $M", Bad, Undecided),
    (Undecided, "00 e", Entry("e", 3, 4), Reversed),
    (
        Undecided,
        "BLAKE2b-8 (e) = 00",
        Entry("e", 11, 12),
        Undecided,
    ),
    (Undecided, "$B  e", Entry("e", 66, 67), Standard),
    (
        Standard,
        "BLAKE2b-256 (e) = $B",
        Entry("e", 13, 14),
        Standard,
    ),
    (Standard, "0e5 e", Bad, Standard),
    (
        Standard,
        "BLAKE2b-256 (e) = 0e5751c026e543b2e8ab2eb06099daa1d1e5df47778f7787faab45cdf12fe3",
        Bad,
        Standard,
    ),
];

const LINES_OF_SHA256: &[Example] = &[
    (Undecided, "SHA512 (a) = $S", Bad, Undecided),
    (Undecided, "#", Ignored, Undecided),
    (Undecided, "", Ignored, Undecided),
];

#[test]
fn tagged_lines(rt: HostRuntime) -> Result<(), Fail> {
    check(&rt, Algo::Md5, LINES_OF_MD5)?;
    check(&rt, Algo::Blake2b, LINES_OF_BLAKE2B)?;
    check(&rt, Algo::Sha256, LINES_OF_SHA256)
}
