//! Memory that is refused: each growth in turn, on heaps that are each a little larger. A heap gives multiples of 16
//! bytes, so each growth is refused on some heap.
use super::{MISSING, REPORTS, Stage, VERDICTS, WARNINGS, run_line, spell, stage, wrote};
use linked_list_allocator::LocalHeap;
use std::alloc::{Allocator, Global};
use std::process::Abort;
use std::test::Fail;
use sum_engine::Stop;
use sum_sources::{Answer, Ending, NoRoom, Told, ToldSource};

// A place where a run may stop: the texts up to there, and how many names were opened.
type Place<'a> = (&'a str, &'a str, usize);

// Whether these are the names that were opened.
fn asked<A: Allocator + Copy>(streams: &Stage<A, 1024>, names: &[&str]) -> bool {
    for (i, name) in names.iter().enumerate() {
        if streams.inputs.source.source().asked_name(i) != Some(name.as_bytes()) {
            return false;
        }
    }
    streams
        .inputs
        .source
        .source()
        .asked_name(names.len())
        .is_none()
}

// At which of its places a run with this outcome stands: at the last it has ended with status 1.
fn place_of<A: Allocator + Copy>(
    alloc: Global,
    streams: &Stage<A, 1024>,
    outcome: Result<u8, Stop>,
    names: &[&str],
    places: &[Place],
) -> Result<usize, Fail> {
    for (i, (out, err, count)) in places.iter().enumerate() {
        let (out, err) = (spell(alloc, out)?, spell(alloc, err)?);
        let ended = if i.saturating_add(1) == places.len() {
            Ok(1)
        } else {
            Err(Stop::Memory)
        };
        if (outcome, wrote(streams)) == (ended, (out.as_bytes(), err.as_bytes()))
            && asked(streams, names.get(..*count).ok_or("names")?)
        {
            return Ok(i);
        }
    }
    Err(Fail::from("the run stands at none of the places"))
}

// Runs a line over the files `a`, `e` and a manifest, on a heap of this many bytes, which the files, the words and the
// run share. Returns at which of the places it stands, or `None` if there was no room for the files or the words.
fn place_within(
    rt: &(impl Abort + AllocGlobal),
    size: usize,
    (line, list, manifest): (&str, &str, &str),
    names: &[&str],
    places: &[Place],
) -> Result<Option<usize>, Fail> {
    let heap = LocalHeap::new(rt.alloc(), size)?;
    let manifest = spell(rt.alloc(), manifest)?;
    match source_on(&heap, list, manifest.as_bytes()) {
        Ok(source) => place_over(rt.alloc(), &heap, source, line, names, places),
        Err(NoRoom) => Ok(None),
    }
}

fn place_over<A: Allocator + Copy>(
    alloc: Global,
    heap: A,
    source: ToldSource<A>,
    line: &str,
    names: &[&str],
    places: &[Place],
) -> Result<Option<usize>, Fail> {
    let mut streams = stage(Told::new(b"abc", Ending::Whole, 8192), source);
    match run_line(heap, line, &mut streams) {
        Some(outcome) => Ok(Some(place_of(alloc, &streams, outcome, names, places)?)),
        None => Ok(None),
    }
}

fn source_on<'a, A: Allocator + Copy>(
    heap: A,
    list: &str,
    manifest: &'a [u8],
) -> Result<ToldSource<'a, A>, NoRoom> {
    let mut source = ToldSource::new(heap, 8192);
    source.add(b"a", Answer::Content(b"abc", Ending::Whole))?;
    source.add(b"e", Answer::Content(b"", Ending::Whole))?;
    source.add(list.as_bytes(), Answer::Content(manifest, Ending::Whole))?;
    Ok(source)
}

// The places come in their order, and none is left out.
fn assert_each_growth(
    rt: &(impl Abort + AllocGlobal),
    script: (&str, &str, &str),
    names: &[&str],
    places: &[Place],
) -> Result<(), Fail> {
    let mut reached: usize = 0;
    for size in (0..1600).step_by(16) {
        match place_within(rt, size, script, names, places)? {
            None => assert_eq!(rt; reached, 0, "no room in {size} bytes"),
            Some(place) => {
                let next = place.saturating_add(1);
                assert!(rt;
                    next == reached || place == reached,
                    "{size} bytes: place {place} follows {reached}"
                );
                reached = next;
            }
        }
    }
    assert_eq!(rt; reached, places.len());
    Ok(())
}

const GENERATION: [Place<'static>; 4] = [
    ("", "", 0),
    ("$M  a\n", "", 1),
    ("$M  a\n", MISSING, 2),
    ("$M  a\n$E  e\n", MISSING, 3),
];

const CHECK: [Place<'static>; 5] = [
    ("", "", 0),
    ("", "", 1),
    ("a: OK\n", "", 2),
    ("a: OK\nx: FAILED open or read\n", MISSING, 3),
    (REPORTS, WARNINGS, 4),
];

const TWO_CHECKS: [Place<'static>; 5] = [
    ("", "", 0),
    ("", "", 1),
    ("-: OK\n", "", 1),
    ("-: OK\n", "", 2),
    (
        "-: OK\n-: FAILED\n",
        "md5sum: WARNING: 1 computed checksum did NOT match\n",
        2,
    ),
];

#[test]
fn each_growth_refused(rt: HostRuntime) -> Result<(), Fail> {
    let script = ("md5sum a x e", "l", "");
    assert_each_growth(&rt, script, &["a", "x", "e"], &GENERATION)?;
    let script = ("md5sum -c l", "l", VERDICTS);
    assert_each_growth(&rt, script, &["l", "a", "x", "e"], &CHECK)?;
    // What the first check gave back holds the name `l5`, so its second opening isn't refused.
    let script = ("md5sum -c l5 l5", "l5", "$M  -\n");
    let places = [TWO_CHECKS[0], TWO_CHECKS[1], TWO_CHECKS[3], TWO_CHECKS[4]];
    assert_each_growth(&rt, script, &["l5", "l5"], &places)?;
    // It doesn't hold a name that takes more room than a line.
    let name = "a_list_whose_name_takes_more_room_than_any_line_of_it";
    let line = "md5sum -c a_list_whose_name_takes_more_room_than_any_line_of_it \
        a_list_whose_name_takes_more_room_than_any_line_of_it";
    assert_each_growth(&rt, (line, name, "$M  -\n"), &[name, name], &TWO_CHECKS)
}
