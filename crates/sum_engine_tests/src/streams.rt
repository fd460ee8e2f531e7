//! What the tests work on. The calls here have no contracts, so that their callers' proofs stay short.
ghost use Rattle.std.specs.Prelude.{◌≡◌};
ghost use Rattle.sum_sources.specs.inputs.Input.{empty_reads};

use digest_kinds::{Algo, Algos, Kind};
use std::alloc::{Allocator, Global};
use std::process::Abort;
use sum_engine::{
    CheckSettings, Checker, Progress, Settings, Stop, Streams, check_one, generate_one,
};
use sum_lines::{Mode, Style, ToldSink};
use sum_sources::{Answer, Ending, Input, NoRoom, Source, Stdin, Told, ToldSource, WithStdin};

/// Streams whose outputs are in memory.
pub(crate) type Known<I, S> = Streams<WithStdin<I, S>, ToldSink<1000>, ToldSink<1000>>;

pub(crate) fn known<I: Input + Drop, S: Source>(input: I, source: S) -> Known<I, S>
    requires { (I.state input).reads ≡ empty_reads }
{
    let (out, err) = (ToldSink::new(1000), ToldSink::new(1000));
    Streams::new(WithStdin::new(Stdin::new(input), source), out, err)
}

/// The plain check of MD5 digests.
pub(crate) fn plain() -> CheckSettings {
    CheckSettings::new(Algos::One(Algo::Md5))
}

/// A manifest of which each line has another verdict.
pub(crate) const ALL: &str = "900150983cd24fb0d6963f7d28e17f72  a\n\
    #c\n\
    junk\n\
    900150983cd24fb0d6963f7d28e17f72 *x\n\
    900150983cd24fb0d6963f7d28e17f72  e\n";

/// What its check has written after this many steps.
pub(crate) const AFTER: [(&str, &str); 7] = [
    ("", ""),
    ("a: OK\n", ""),
    ("a: OK\n", ""),
    ("a: OK\n", ""),
    ("a: OK\nx: FAILED open or read\n", MISSING),
    (REPORTS, MISSING),
    (REPORTS, WARNINGS),
];

pub(crate) const REPORTS: &str = "a: OK\nx: FAILED open or read\ne: FAILED\n";

pub(crate) const MISSING: &str = "md5sum: x: No such file or directory\n";

pub(crate) const WARNINGS: &str = "md5sum: x: No such file or directory\n\
    md5sum: WARNING: 1 line is improperly formatted\n\
    md5sum: WARNING: 1 listed file could not be read\n\
    md5sum: WARNING: 1 computed checksum did NOT match\n";

/// Four files: `a` and `"q\\\nz"` hold `abc`, `e` is empty, and `l` holds the manifest and has this ending.
pub(crate) fn files<'a, A: Allocator + Copy>(
    alloc: A,
    manifest: &'a str,
    ending: Ending,
) -> Result<ToldSource<'a, A>, NoRoom> {
    let mut source = ToldSource::new(alloc, 7);
    source.add(b"a", Answer::Content(b"abc", Ending::Whole))?;
    source.add(b"q\\\nz", Answer::Content(b"abc", Ending::Whole))?;
    source.add(b"e", Answer::Content(b"", Ending::Whole))?;
    source.add(b"l", Answer::Content(manifest.as_bytes(), ending))?;
    Ok(source)
}

/// Hashes a name by `md5sum`.
pub(crate) fn generate<I: Input + Drop, S: Source>(
    name: &str,
    streams: &mut Known<I, S>,
) -> Result<bool, Stop> {
    let settings = Settings {
        kind: Kind::of(Algo::Md5),
        style: Style {
            mode: Mode::Text,
            zero: false,
        },
    };
    generate_one(&settings, "md5sum", name.as_bytes(), streams)
}

/// Checks a manifest by `md5sum`.
pub(crate) fn check<I: Input + Drop, S: Source>(
    alloc: Global,
    settings: CheckSettings,
    name: &str,
    streams: &mut Known<I, S>,
) -> Result<bool, Stop> {
    check_one(alloc, settings, "md5sum", name.as_bytes(), streams)
}

/// A checker of `l`.
pub(crate) fn checker_of(manifest: &str) -> Checker<'static, Told<'_>> {
    let input = Told::new(manifest.as_bytes(), Ending::Whole, 8192);
    Checker::new(plain(), "md5sum", b"l", false, input)
}

/// A step of it.
pub(crate) fn step<L: Allocator, A: Allocator + Copy>(
    checker: &mut Checker<Told>,
    line: &mut Vec<u8, L>,
    streams: &mut Known<Told, ToldSource<A>>,
) -> Result<Progress, Stop> {
    checker.step(line, streams)
}

/// Asserts that the outputs hold these texts.
pub(crate) fn assert_wrote<I: Input + Drop, S: Source>(
    rt: &impl Abort,
    streams: &Known<I, S>,
    out: &str,
    err: &str,
) {
    assert_eq!(rt; streams.outputs.out.get_ref().bytes(), out.as_bytes());
    assert_eq!(rt; streams.outputs.err.get_ref().bytes(), err.as_bytes());
}
