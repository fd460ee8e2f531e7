//! Worked examples, whose texts were written down before there was a program.
use super::{
    ABC, Example, File, Given, MISSING, NOTHING, REPORTS, VERDICTS, WARNINGS, assert_examples,
    broken, repeat,
};
use std::test::Fail;
use sum_sources::{Ending, Fault};

#[test]
fn lines_of_names(rt: HostRuntime) -> Result<(), Fail> {
    const FULL: &str =
        "BLAKE2b (e) = 786a02f742015903c6c6fd852552d272912f4740e15847618a86e217f71f5419\
         d25e1031afee585313896444934eb04b903a685b1448b755d56f701afe9be2ce\n";
    const EXAMPLES: [Example<'static>; 21] = [
        ("sha256sum", "$S  -\n", "", 0),
        ("md5sum a e", "$M  a\n$E  e\n", "", 0),
        ("md5sum -b a", "$M *a\n", "", 0),
        ("md5sum a x e", "$M  a\n$E  e\n", MISSING, 1),
        ("md5sum - -", "$M  -\n$E  -\n", "", 0),
        ("md5sum q\\\nz", "\\$M  q\\\\\\nz\n", "", 0),
        ("md5sum -z q\\\nz", "$M  q\\\nz\0", "", 0),
        ("md5sum a\rb", "\\$M  a\\rb\n", "", 0),
        ("md5sum -z a\rb", "$M  a\rb\0", "", 0),
        ("md5sum -t --tag a", "MD5 (a) = $M\n", "", 0),
        ("md5sum --tag -b a", "MD5 (a) = $M\n", "", 0),
        ("md5sum --ta a", "MD5 (a) = $M\n", "", 0),
        ("b2sum -l 256 e", "$B  e\n", "", 0),
        ("b2sum --len 256 e", "$B  e\n", "", 0),
        ("b2sum -bl256 e", "$B *e\n", "", 0),
        ("b2sum -l 0256 e", "$B  e\n", "", 0),
        ("b2sum -l 256 --tag e", "BLAKE2b-256 (e) = $B\n", "", 0),
        ("b2sum -l 0 --tag e", FULL, "", 0),
        ("b2sum -l 512 --tag e", FULL, "", 0),
        ("md5sum ", "", "md5sum: : No such file or directory\n", 1),
        ("sha256sum -- -b", "$S  -b\n", "", 0),
    ];
    assert_examples(&rt, ABC, &[("-b", ABC)], &EXAMPLES)?;
    let of_nothing = "e3b0c44298fc1c149afbf4c8996fb92427ae41e4649b934ca495991b7852b855  -\n";
    assert_examples(&rt, NOTHING, &[], &[("sha256sum", of_nothing, "", 0)])
}

// No digest of what precedes a fault, however much that is.
#[test]
fn broken_inputs(rt: HostRuntime) -> Result<(), Fail> {
    let text = repeat(rt.alloc(), "x", 9000)?;
    let examples = [
        ("sha256sum", "", "sha256sum: -: Input/output error\n", 1),
        ("md5sum f", "", "md5sum: f: Input/output error\n", 1),
    ];
    let f = ("f", broken(text.as_str()));
    assert_examples(&rt, broken("abc"), &[f], &examples)?;
    let example = ("md5sum f", "", "md5sum: f: Permission denied\n", 1);
    for count in 0..=300 {
        let bytes: Given = (
            text.as_str().get(..count).ok_or("count")?,
            Ending::Broken(Fault::Denied),
        );
        assert_examples(&rt, NOTHING, &[("f", bytes)], &[example])?;
    }
    Ok(())
}

// Which words have which fault is proved, and the tests of `sum_words` have the texts.
#[test]
fn faults_of_words(rt: HostRuntime) -> Result<(), Fail> {
    for (line, text) in [
        ("md5sum --tag -t a", "--tag does not support --text mode"),
        ("md5sum --=x a", "option '--' is ambiguous"),
        ("b2sum -l --help", "invalid length: '--help'"),
        ("b2sum e --len", "option '--length' requires an argument"),
        ("anysum", "--check is required"),
    ] {
        let tool = line.split(' ').next().ok_or("no tool")?;
        let err = format!(in rt.alloc();
            "{tool}: {text}\nTry '{tool} --help' for more information.\n"
        )?;
        assert_examples(&rt, ABC, &[], &[(line, "", err.as_str(), 1)])?;
    }
    Ok(())
}

// No line of these manifests is an entry, or none was verified.
#[test]
fn nothing_verified(rt: HostRuntime) -> Result<(), Fail> {
    const NONE: &str = "md5sum: e: no properly formatted checksum lines found\n";
    const UNVERIFIED: &str = "md5sum: l2: no file was verified\n";
    const EXAMPLES: [Example<'static>; 3] = [
        ("md5sum -c e", "", NONE, 1),
        ("md5sum -c --status e", "", NONE, 1),
        ("md5sum -c --ignore-missing l2", "", UNVERIFIED, 1),
    ];
    let l2 = ("l2", ("$M  x\n", Ending::Whole));
    assert_examples(&rt, NOTHING, &[l2], &EXAMPLES)?;
    let err = "md5sum: standard input: no properly formatted checksum lines found\n";
    let input = ("$M  -\n", Ending::Whole);
    assert_examples(&rt, input, &[], &[("md5sum -c", "", err, 1)])?;
    let err = "anysum: standard input: no properly formatted checksum lines found\n";
    let input = ("$M  a\n", Ending::Whole);
    assert_examples(&rt, input, &[], &[("anysum -c", "", err, 1)])
}

// Options that change what is reported, standard input that is listed, and tags of several algorithms.
#[test]
fn settings_of_reports(rt: HostRuntime) -> Result<(), Fail> {
    const MIXED: &str =
        "MD5 (a) = $M\nSHA256 (a) = $S\nBLAKE2b-256 (e) = $B\n$M  a\nSHA256 (e) = $E\n";
    const FILES: [File<'static>; 6] = [
        ("l", (VERDICTS, Ending::Whole)),
        ("l4", ("$M  a\n$M  a", Ending::Broken(Fault::Other))),
        ("l5", ("$M  -\n", Ending::Whole)),
        ("l8", ("$M  a", Ending::Whole)),
        ("l9", ("junk\n$M  a\n", Ending::Whole)),
        ("m", (MIXED, Ending::Whole)),
    ];
    const NOT_X: &str = "x: FAILED open or read\ne: FAILED\n";
    const IGNORING: &str = "md5sum: l: 3: improperly formatted MD5 checksum line\n\
        md5sum: WARNING: 1 line is improperly formatted\n\
        md5sum: WARNING: 1 computed checksum did NOT match\n";
    const FAULT: &str = "md5sum: l4: Input/output error\n";
    const WRONG: &str = "md5sum: WARNING: 1 computed checksum did NOT match\n";
    const BAD: &str = "md5sum: WARNING: 1 line is improperly formatted\n\
        md5sum: WARNING: 1 line is improperly formatted\n";
    const OF_M: &str = "a: OK\na: OK\ne: OK\n";
    const TWO: &str = "anysum: WARNING: 2 lines are improperly formatted\n";
    const NAMED: &str = "anysum: m: 4: improperly formatted tagged checksum line\n\
        anysum: m: 5: improperly formatted tagged checksum line\n\
        anysum: WARNING: 2 lines are improperly formatted\n";
    const EXAMPLES: [Example<'static>; 14] = [
        ("md5sum -c l", REPORTS, WARNINGS, 1),
        ("md5sum -c --quiet l", NOT_X, WARNINGS, 1),
        ("md5sum -c --status l", "", MISSING, 1),
        (
            "md5sum -c --ignore-missing -w --strict l",
            "a: OK\ne: FAILED\n",
            IGNORING,
            1,
        ),
        ("md5sum -c l4", "a: OK\n", FAULT, 1),
        ("md5sum -c l5", "-: OK\n", "", 0),
        ("md5sum -c l5 l5", "-: OK\n-: FAILED\n", WRONG, 1),
        ("md5sum -c l8", "a: OK\n", "", 0),
        ("md5sum -c x", "", MISSING, 1),
        ("md5sum -c l8 x", "a: OK\n", MISSING, 1),
        ("md5sum -c l9 l9", "a: OK\na: OK\n", BAD, 0),
        ("anysum -c m", OF_M, TWO, 0),
        ("anysum -c --strict m", OF_M, TWO, 1),
        ("anysum -c -w m", OF_M, NAMED, 0),
    ];
    assert_examples(&rt, ABC, &FILES, &EXAMPLES)
}

// The layouts of manifests, digits in upper case, the ends of lines, escaped names, and counts above one.
#[test]
fn forms_of_manifests(rt: HostRuntime) -> Result<(), Fail> {
    const L7: &str = "$B  e\nBLAKE2b-256 (e) = $B\n0e5 e\n\
        BLAKE2b-256 (e) = 0e5751c026e543b2e8ab2eb06099daa1d1e5df47778f7787faab45cdf12fe3\n";
    const L6: &str = "\\$M  q\\\\\\nz\n\\$M  q\\x\n\\$M  q\\\n\\$M  a\\r\n$M  q\\x\n";
    const L10: &str = "$M  x\n$M  x\n$E  a\n$E  a\njunk\njunk\n";
    const WHOLE: Ending = Ending::Whole;
    const FILES: [File<'static>; 10] = [
        ("upper", ("900150983CD24FB0D6963F7D28E17F72  a\n", WHOLE)),
        ("narrow", ("MD5(a)= $M\n", WHOLE)),
        ("reversed", ("$M a\n$M  a\n", WHOLE)),
        ("standard", ("$M  a\n$M a\n", WHOLE)),
        ("return", ("\\$M  a\\rb\n", WHOLE)),
        ("l6", (L6, WHOLE)),
        ("l7", (L7, WHOLE)),
        ("l10", (L10, WHOLE)),
        ("l11", ("$M  a\r\n\n\r\njunk\r\n", WHOLE)),
        ("l12", ("$M  a\r\r\n", WHOLE)),
    ];
    const BAD: &str = "md5sum: WARNING: 1 line is improperly formatted\n";
    const BLANK: &str = "md5sum:  a: No such file or directory\n\
        md5sum: WARNING: 1 listed file could not be read\n";
    const OUT_6: &str =
        "\\q\\\\\\nz: OK\n\\a\\r: FAILED open or read\n\\q\\\\x: FAILED open or read\n";
    const ERR_6: &str = "md5sum: a\\r: No such file or directory\n\
        md5sum: q\\\\x: No such file or directory\n\
        md5sum: WARNING: 2 lines are improperly formatted\n\
        md5sum: WARNING: 2 listed files could not be read\n";
    const ERR_7: &str = "b2sum: WARNING: 2 lines are improperly formatted\n";
    const OUT_10: &str = "x: FAILED open or read\nx: FAILED open or read\na: FAILED\na: FAILED\n";
    const ERR_10: &str = "md5sum: x: No such file or directory\n\
        md5sum: x: No such file or directory\n\
        md5sum: WARNING: 2 lines are improperly formatted\n\
        md5sum: WARNING: 2 listed files could not be read\n\
        md5sum: WARNING: 2 computed checksums did NOT match\n";
    const ERR_11: &str = "md5sum: l11: 4: improperly formatted MD5 checksum line\n\
        md5sum: WARNING: 1 line is improperly formatted\n";
    const ERR_12: &str = "md5sum: a\\r: No such file or directory\n\
        md5sum: WARNING: 1 listed file could not be read\n";
    const OUT_12: &str = "\\a\\r: FAILED open or read\n";
    const EXAMPLES: [Example<'static>; 11] = [
        ("md5sum -c upper", "a: OK\n", "", 0),
        ("md5sum -c narrow", "a: OK\n", "", 0),
        (
            "md5sum -c reversed",
            "a: OK\n a: FAILED open or read\n",
            BLANK,
            1,
        ),
        ("md5sum -c standard", "a: OK\n", BAD, 0),
        ("md5sum -c --strict standard", "a: OK\n", BAD, 1),
        ("md5sum -c return", "\\a\\rb: OK\n", "", 0),
        ("md5sum -c l6", OUT_6, ERR_6, 1),
        ("b2sum -c l7", "e: OK\ne: OK\n", ERR_7, 0),
        ("md5sum -c l10", OUT_10, ERR_10, 1),
        ("md5sum -c -w l11", "a: OK\n", ERR_11, 0),
        ("md5sum -c l12", OUT_12, ERR_12, 1),
    ];
    assert_examples(&rt, NOTHING, &FILES, &EXAMPLES)
}
