//! Manifests that break off anywhere, and hostile ones.
use super::{
    Example, NOTHING, REPORTS, Stage, VERDICTS, assert_ended, assert_examples, broken, repeat,
    run_line, spell, stage,
};
use std::alloc::Global;
use std::process::Abort;
use std::test::Fail;
use sum_sources::{Answer, Ending, Told, ToldSource};

const FAULT: &str = "md5sum: l: Input/output error\n";

const BOTH: &str = "md5sum: x: No such file or directory\nmd5sum: l: Input/output error\n";

// What a check of a cut manifest writes, by the number of lines that a newline ended.
const OF_CUT: [(&str, &str); 6] = [
    ("", FAULT),
    ("a: OK\n", FAULT),
    ("a: OK\n", FAULT),
    ("a: OK\n", FAULT),
    ("a: OK\nx: FAILED open or read\n", BOTH),
    (REPORTS, BOTH),
];

// The reports of the lines that a newline ended, then the fault, and no summary.
#[test]
fn cut_manifest(rt: HostRuntime) -> Result<(), Fail> {
    let manifest = spell(rt.alloc(), VERDICTS)?;
    for count in 0..=116 {
        assert_cut(&rt, manifest.as_str().get(..count).ok_or("count")?)?;
    }
    Ok(())
}

fn assert_cut(rt: &(impl Abort + AllocGlobal), prefix: &str) -> Result<(), Fail> {
    let lines = prefix.split('\n').skip(1).count();
    let (out, err) = *OF_CUT.get(lines).ok_or("lines")?;
    let example = ("md5sum -c l", out, err, 1);
    assert_examples(rt, NOTHING, &[("l", broken(prefix))], &[example])
}

// Asserts what the check of a manifest writes, and its status.
fn assert_check(
    rt: &(impl Abort + AllocGlobal),
    (text, out, err, status): Example,
) -> Result<(), Fail> {
    let h = ("h", (text, Ending::Whole));
    assert_examples(rt, NOTHING, &[h], &[("md5sum -c h", out, err, status)])
}

const NONE: &str = "md5sum: h: no properly formatted checksum lines found\n";

// Manifests, with what their check writes and its status.
const CHECKS: [Example<'static>; 3] = [
    ("   \t\n", "", NONE, 1),
    (
        "\\\n\\\\$M  a\n\\$M  a\\\n$M a\n$M  a\n",
        "a: OK\n",
        "md5sum: WARNING: 4 lines are improperly formatted\n",
        0,
    ),
    (
        "MD5 (a) = $M\n$M a\nMD5 (e) = $E\n$M  a\n",
        "a: OK\na: OK\ne: OK\n a: FAILED open or read\n",
        "md5sum:  a: No such file or directory\n\
         md5sum: WARNING: 1 listed file could not be read\n",
        1,
    ),
];

#[test]
fn hostile_manifests(rt: HostRuntime) -> Result<(), Fail> {
    for (letter, count, end) in [
        ("\0", 1000, "\n"),
        ("x", 1_000_000, ""),
        ("\n", 100_000, ""),
    ] {
        let mut text = repeat(rt.alloc(), letter, count)?;
        text.push_str(end)?;
        assert_check(&rt, (text.as_str(), "", NONE, 1))?;
    }
    for check in &CHECKS {
        assert_check(&rt, *check)?;
    }
    let mut comments = String::new(rt.alloc());
    for count in [8191, 8192, 8193] {
        comments.push_str(repeat(rt.alloc(), "#", count)?.as_str())?;
        comments.push('\n')?;
    }
    comments.push_str("$M  a\n")?;
    assert_check(&rt, (comments.as_str(), "a: OK\n", "", 0))
}

// The one line, which no newline ends, names a file of nearly 100,000 letters.
#[test]
fn long_name(rt: HostRuntime) -> Result<(), Fail> {
    let name = repeat(rt.alloc(), "y", 99_966)?;
    let name = name.as_str();
    let manifest = format!(in rt.alloc(); "$M  {name}")?;
    let out = format!(in rt.alloc(); "{name}: FAILED open or read\n")?;
    let err = format!(in rt.alloc();
        "md5sum: {name}: No such file or directory\n\
         md5sum: WARNING: 1 listed file could not be read\n"
    )?;
    let manifest = spell(rt.alloc(), manifest.as_str())?;
    for piece in [1, 8192] {
        let example = ("md5sum -c h", out.as_str(), err.as_str(), 1);
        assert_long(&rt, manifest.as_bytes(), piece, example)?;
    }
    Ok(())
}

fn assert_long(
    rt: &(impl Abort + AllocGlobal),
    manifest: &[u8],
    piece: usize,
    example: Example,
) -> Result<(), Fail> {
    let mut source = ToldSource::new(rt.alloc(), piece);
    source.add(b"h", Answer::Content(manifest, Ending::Whole))?;
    let mut streams: Stage<Global, 100_100> = stage(Told::new(b"", Ending::Whole, piece), source);
    let outcome = run_line(rt.alloc(), example.0, &mut streams);
    assert_ended(rt, &streams, outcome, example)
}
