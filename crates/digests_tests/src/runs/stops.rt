//! Outputs that stop: the run returns that, and each output holds exactly the bytes that it took.
use super::{
    REPORTS, Stage, VERDICTS, WARNINGS, run_line, source_of, spell_all, stage_until, wrote,
};
use std::alloc::Global;
use std::process::Abort;
use std::test::Fail;
use sum_engine::Stop;
use sum_sources::{Ending, Told};

// Runs a line over standard input without bytes, the usual files and a list `l`, with outputs that stop after this
// many bytes. They then hold prefixes of these texts. Returns how many bytes each holds, and the outcome.
fn lengths(
    rt: &(impl Abort + AllocGlobal),
    (line, out, err): (&str, &str, &str),
    stops: (usize, usize),
) -> Result<(usize, usize, Option<Result<u8, Stop>>), Fail> {
    let list = [("l", (VERDICTS, Ending::Whole))];
    let contents = spell_all(rt.alloc(), &list)?;
    let source = source_of(rt.alloc(), 8192, &list, &contents)?;
    let input = Told::new(b"", Ending::Whole, 8192);
    let mut streams: Stage<Global, 256> = stage_until(input, source, stops);
    let outcome = run_line(rt.alloc(), line, &mut streams);
    let (on_out, on_err) = wrote(&streams);
    assert!(rt; out.as_bytes().starts_with(on_out), "{line}, {stops:?}");
    assert!(rt; err.as_bytes().starts_with(on_err), "{line}, {stops:?}");
    Ok((on_out.len(), on_err.len(), outcome))
}

const STOPPED: Option<Result<u8, Stop>> = Some(Err(Stop::Write));

#[test]
fn output_stops(rt: HostRuntime) -> Result<(), Fail> {
    for script in [
        ("sha256sum", "e3b0c44298", ""),
        ("md5sum a e", "900150983c", ""),
    ] {
        assert_eq!(rt; lengths(&rt, script, (10, 256))?, (10, 0, STOPPED));
    }
    Ok(())
}

#[test]
fn each_byte_the_last(rt: HostRuntime) -> Result<(), Fail> {
    let script = ("md5sum -c l", REPORTS, WARNINGS);
    for stop in 0..39 {
        let (out, _, outcome) = lengths(&rt, script, (stop, 256))?;
        assert_eq!(rt; (out, outcome), (stop, STOPPED));
    }
    for stop in 0..185 {
        let (_, err, outcome) = lengths(&rt, script, (256, stop))?;
        assert_eq!(rt; (err, outcome), (stop, STOPPED));
    }
    for stops in [(39, 256), (256, 185)] {
        assert_eq!(rt; lengths(&rt, script, stops)?, (39, 185, Some(Ok(1))));
    }
    Ok(())
}
