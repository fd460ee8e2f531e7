//! Memory that is refused for a line, or for the name of a file that is to be opened.
use crate::streams::{
    AFTER, ALL, assert_wrote, check, checker_of, files, generate, known, plain, step,
};
use linked_list_allocator::LocalHeap;
use std::process::Abort;
use std::test::Fail;
use sum_engine::{Progress, Stop};
use sum_sources::{Ending, Told};

// Steps over a manifest of two lines. There is room for the first, and for its file's name, and none for the second, or
// for its file's name: the checker stops for good.
fn stops(
    rt: &(impl Abort + AllocGlobal),
    manifest: &str,
    (line, names): (usize, usize),
) -> Result<(), Fail> {
    let (lines, names) = (
        LocalHeap::new(rt.alloc(), line)?,
        LocalHeap::new(rt.alloc(), names)?,
    );
    let source = files(&names, "", Ending::Whole)?;
    let mut streams = known(Told::new(b"", Ending::Whole, 1), source);
    let mut checker = checker_of(manifest);
    let mut line = Vec::new(&lines);
    assert!(rt; step(&mut checker, &mut line, &mut streams) == Ok(Progress::Going));
    for _ in 0..3 {
        assert!(rt; step(&mut checker, &mut line, &mut streams) == Err(Stop::Memory));
        assert_wrote(rt, &streams, "a: OK\n", "");
    }
    Ok(())
}

#[test]
fn memory_refused(rt: HostRuntime) -> Result<(), Fail> {
    let long = "x".repeat(rt.alloc(), 5000)?;
    let line = "900150983cd24fb0d6963f7d28e17f72  ";
    let manifest = format!(in rt.alloc(); "{line}a\n{line}{}", long.as_str())?;
    stops(&rt, manifest.as_str(), (256, 65_536))?;
    stops(&rt, manifest.as_str(), (65_536, 1024))?;
    let names = LocalHeap::new(rt.alloc(), 1024)?;
    let source = files(&names, "", Ending::Whole)?;
    let mut streams = known(Told::new(b"", Ending::Whole, 1), source);
    assert!(rt; generate(long.as_str(), &mut streams) == Err(Stop::Memory));
    let checked = check(rt.alloc(), plain(), long.as_str(), &mut streams);
    assert!(rt; checked == Err(Stop::Memory));
    assert_wrote(&rt, &streams, "", "");
    Ok(())
}

// Steps over all verdicts on a heap of this many bytes, which is all that there is until it stops or ends. After that
// each step is as the last one. Returns how many steps were done, or `None` if there was no room for the files.
fn steps_within(rt: &(impl Abort + AllocGlobal), size: usize) -> Result<Option<usize>, Fail> {
    let heap = LocalHeap::new(rt.alloc(), size)?;
    let Ok(source) = files(&heap, "", Ending::Whole) else {
        return Ok(None);
    };
    let mut streams = known(Told::new(b"", Ending::Whole, 1), source);
    let mut checker = checker_of(ALL);
    let mut line = Vec::new(&heap);
    let mut last = Ok(Progress::Going);
    let mut steps: usize = 0;
    for _ in 0..6 {
        if last == Ok(Progress::Going) {
            last = step(&mut checker, &mut line, &mut streams);
            steps = steps.saturating_add(usize::from(last.is_ok()));
        }
    }
    let (out, err) = AFTER.get(steps).ok_or("steps")?;
    let mut ample = Vec::new(rt.alloc());
    for _ in 0..3 {
        assert_wrote(rt, &streams, out, err);
        assert_eq!(rt; step(&mut checker, &mut ample, &mut streams), last);
    }
    assert_wrote(rt, &streams, out, err);
    Ok(Some(steps))
}

// A heap gives multiples of 16 bytes, so each growth is refused on some heap. Memory is wanted for the first line and
// for each file that is opened: a checker stops before the first line, the fourth and the fifth, and nowhere else.
#[test]
fn each_growth_refused(rt: HostRuntime) -> Result<(), Fail> {
    let mut stops = Vec::new(rt.alloc());
    for size in (0..1600).step_by(16) {
        if let Some(steps) = steps_within(&rt, size)?
            && stops.last() != Some(&steps)
        {
            stops.push(steps)?;
        }
    }
    assert_eq!(rt; stops.as_slice(), [0, 3, 4, 6].as_slice());
    Ok(())
}
