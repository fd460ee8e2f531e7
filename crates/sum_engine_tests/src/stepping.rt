//! `Checker` and `Verdicts`, line by line.
use crate::streams::{
    AFTER, ALL, REPORTS, WARNINGS, assert_wrote, checker_of, files, known, plain, step,
};
use std::alloc::Global;
use std::process::Abort;
use std::test::Fail;
use sum_engine::{CheckSettings, Inputs, Progress, Verdict, Verdicts};
use sum_sources::{Ending, Fault, Told};

#[test]
fn step_by_step(rt: HostRuntime) -> Result<(), Fail> {
    let source = files(rt.alloc(), "", Ending::Whole)?;
    let mut streams = known(Told::new(b"", Ending::Whole, 1), source);
    let mut checker = checker_of(ALL);
    let mut line = Vec::new(rt.alloc());
    for (lines, (out, err)) in (1..7).zip(&AFTER[1..]) {
        let going = Ok(Progress::Going);
        let want = if lines < 6 {
            going
        } else {
            Ok(Progress::Ended(false))
        };
        assert_eq!(rt;
            step(&mut checker, &mut line, &mut streams),
            want,
            "{lines}"
        );
        assert_wrote(&rt, &streams, out, err);
    }
    assert!(rt; step(&mut checker, &mut line, &mut streams) == Ok(Progress::Ended(false)));
    assert_wrote(&rt, &streams, REPORTS, WARNINGS);
    assert!(rt; checker.taken() == 116);
    let _input = checker.into_inner();
    Ok(())
}

// Three lines of 6,000 bytes each. It has no contract, so that no proof computes them.
fn long_lines(alloc: Global) -> Result<String, Fail> {
    let long = "x".repeat(alloc, 6000)?;
    let long = long.as_str();
    Ok(format!(in alloc; "{long}\n{long}\n{long}\n")?)
}

#[test]
fn reads_no_further(rt: HostRuntime) -> Result<(), Fail> {
    let manifest = long_lines(rt.alloc())?;
    let source = files(rt.alloc(), "", Ending::Whole)?;
    let mut streams = known(Told::new(b"", Ending::Whole, 1), source);
    let mut checker = checker_of(manifest.as_str());
    let mut line = Vec::new(rt.alloc());
    for number in 1..=3 {
        assert!(rt; step(&mut checker, &mut line, &mut streams) == Ok(Progress::Going));
        assert!(rt; line.len() <= 6000, "line {number}");
        assert!(rt; number > 1 || checker.taken() <= 14_193);
    }
    Ok(())
}

// The lines of the manifest have these verdicts and names, and it is good or not.
fn finds(
    rt: &(impl Abort + AllocGlobal),
    settings: CheckSettings,
    manifest: &str,
    lines: &[(Verdict, &str)],
    good: bool,
) -> Result<(), Fail> {
    let mut inputs = Inputs::new(files(rt.alloc(), "", Ending::Whole)?);
    let input = Told::new(manifest.as_bytes(), Ending::Whole, 7);
    let mut verdicts = Verdicts::new(settings, false, input);
    let mut line = Vec::new(rt.alloc());
    for (i, (verdict, name)) in lines.iter().enumerate() {
        let found = verdicts.next(&mut line, &mut inputs)?;
        let found = found.ok_or("no line")?;
        assert_eq!(rt; (found.number, found.verdict), (i as u64 + 1, *verdict));
        assert_eq!(rt; found.name(&line), name.as_bytes(), "line {i}");
        assert!(rt; !verdicts.is_good(), "line {i}");
    }
    for _ in 0..2 {
        assert_eq!(rt; verdicts.next(&mut line, &mut inputs), Ok(None));
        assert_eq!(rt; verdicts.is_good(), good);
    }
    assert!(rt; verdicts.taken() == manifest.len() as u64);
    let _input = verdicts.into_inner();
    Ok(())
}

#[test]
fn verdicts(rt: HostRuntime) -> Result<(), Fail> {
    let lines = [
        (Verdict::Right, "a"),
        (Verdict::Ignored, ""),
        (Verdict::Bad, ""),
        (Verdict::Unread(Fault::NotFound), "x"),
        (Verdict::Wrong, "e"),
    ];
    finds(&rt, plain(), ALL, &lines, false)?;
    let mut settings = plain();
    settings.ignore_missing = true;
    let manifest = "900150983cd24fb0d6963f7d28e17f72  x\n900150983cd24fb0d6963f7d28e17f72  a\n";
    let lines = [(Verdict::Missing, "x"), (Verdict::Right, "a")];
    finds(&rt, settings, manifest, &lines, true)
}
