//! Told and real sources.
use crate::fronts::Fronts;
use digest_kinds::{Digest, Md5Hasher};
use linked_list_allocator::LocalHeap;
use std::alloc::Allocator;
use std::fs::{self, Metadata, OpenOptions};
use std::io::{self, ErrorKind};
use std::process::Abort;
use std::rt;
use std::test::Fail;
use sum_sources::{
    Answer, Ending, Fault, Files, HashFault, Input, NoRoom, OpenFault, PIECE, Source, Stdin, Told,
    ToldSource, WithStdin, hash_file,
};

// The file of this name has this digest.
fn hashes<S: Source>(
    rt: &impl Abort,
    source: &mut S,
    name: &[u8],
    digits: &[u8],
) -> Result<(), Fail> {
    let digest = hash_file(source, name, Md5Hasher::new())?;
    assert!(rt; Some(digest) == Digest::from_hex(digits));
    Ok(())
}

// The file of this name has no digest, by this fault.
fn refuses<S: Source>(rt: &impl Abort, source: &mut S, name: &[u8], fault: HashFault) {
    assert_eq!(rt;
        hash_file(source, name, Md5Hasher::new()).err(),
        Some(fault)
    );
}

// A source with two answers to a name, of which the first counts, a file that can't be read to its end, and no room for
// this name. It has no contract, so that no proof computes it.
fn notes<'a, A: Allocator + Copy>(
    rt: &impl Abort,
    alloc: A,
    long: &'a [u8],
) -> Result<ToldSource<'a, A>, Fail> {
    let mut files = ToldSource::new(alloc, PIECE);
    files.add(NOTES, Answer::Content(b"abc", Ending::Whole))?;
    files.add(NOTES, Answer::Fault(Fault::Other))?;
    files.add(
        BROKEN,
        Answer::Content(b"abc", Ending::Broken(Fault::Denied)),
    )?;
    assert!(rt; files.add(long, Answer::Fault(Fault::Denied)) == Err(NoRoom));
    Ok(files)
}

// The name that was opened after this many others.
fn asked<A: Allocator + Copy>(rt: &impl Abort, files: &ToldSource<A>, number: usize, name: &[u8]) {
    assert_eq!(rt; files.asked_name(number), Some(name));
}

const NOTES: &[u8] = b"notes.txt";

const BROKEN: &[u8] = b"broken";

const MD5_OF_ABC: &[u8] = b"900150983cd24fb0d6963f7d28e17f72";

// The lines of the crate's front page, the first answer to a name, and the names opened. An answer for which the
// heap has no room changes nothing.
#[test]
fn told_source(rt: HostRuntime) -> Result<(), Fail> {
    let heap = LocalHeap::new(rt.alloc(), 1024)?;
    let long = vec![in rt.alloc(); b'n'; 1024]?;
    let mut files = notes(&rt, &heap, &long)?;
    hashes(&rt, &mut files, NOTES, MD5_OF_ABC)?;
    refuses(&rt, &mut files, &long, HashFault::Open(OpenFault::Memory));
    refuses(
        &rt,
        &mut files,
        &[],
        HashFault::Open(OpenFault::Fault(Fault::NotFound)),
    );
    refuses(&rt, &mut files, BROKEN, HashFault::Read(Fault::Denied));
    asked(&rt, &files, 0, NOTES);
    asked(&rt, &files, 1, &[]);
    asked(&rt, &files, 2, BROKEN);
    assert!(rt; files.asked_name(3).is_none());
    Ok(())
}

// The file of this name holds "abc".
fn holds_abc<S: Source>(rt: &impl Abort, source: &mut S, name: &[u8]) -> Result<(), Fail> {
    let mut buf = [0; 8];
    let mut file = source.open_file(name)?;
    let counts = (file.read(&mut buf), file.read(&mut [0; 8]));
    source.close_file(file);
    assert_eq!(rt; counts, (Ok(3), Ok(0)));
    assert_eq!(rt; buf, *b"abc\0\0\0\0\0");
    Ok(())
}

// A file of a source that computes its answers has as many bytes as its name, also where standard input is one more.
#[test]
fn computed_source(rt: HostRuntime) -> Result<(), Fail> {
    hashes(&rt, &mut Fronts::new(b"abcd"), b"xyz", MD5_OF_ABC)?;
    let stdin: Stdin<Told> = Stdin::closed();
    hashes(
        &rt,
        &mut WithStdin::new(stdin, Fronts::new(b"abcd")),
        b"xyz",
        MD5_OF_ABC,
    )
}

#[test]
fn real_files(rt: HostRuntime) -> Result<(), Fail> {
    fs::write(&rt, "sum_sources_real", b"abc".as_slice())?;
    let mut files = Files::new(rt.clone()?);
    holds_abc(&rt, &mut files, b"sum_sources_real")?;
    for (name, fault) in [
        (b"sum_sources_real/".as_slice(), Fault::Os(20)),
        (b"sum_sources_none", Fault::NotFound),
        (b"\xff", Fault::Os(84)),
    ] {
        refuses(
            &rt,
            &mut files,
            name,
            HashFault::Open(OpenFault::Fault(fault)),
        );
    }
    fs::remove_file(&rt, "sum_sources_real")?;
    Ok(())
}

// A file system that has no memory for a call, and nothing else.
#[derive(Drop)]
struct NoMemory;

fn refuse<T>() -> io::Result<T> {
    Err(io::Error::from(ErrorKind::OutOfMemory))
}

#[rattlefmt::skip]
impl rt::Files for NoMemory {
    type File = fs::File;
    type Dir = io::Empty;
    fn open_file(&self, _: &OpenOptions, _: &str) -> io::Result<fs::File> { refuse() }
    fn open_dir(&self, _: &str) -> io::Result<io::Empty> { refuse() }
    fn metadata(&self, _: &str) -> io::Result<Metadata> { refuse() }
    fn symlink_metadata(&self, _: &str) -> io::Result<Metadata> { refuse() }
    fn copy(&self, _: &str, _: &str) -> io::Result<u64> { refuse() }
    fn rename(&self, _: &str, _: &str) -> io::Result<()> { refuse() }
    fn remove_file(&self, _: &str) -> io::Result<()> { refuse() }
    fn create_dir(&self, _: &str) -> io::Result<()> { refuse() }
    fn remove_dir(&self, _: &str) -> io::Result<()> { refuse() }
    fn remove_dir_all<B: Allocator>(&self, _: B, _: &str) -> io::Result<()> { refuse() }
}

// Lack of memory is reported as such, the first time and every time.
#[test]
fn no_memory_to_open(rt: HostRuntime) {
    let mut files = Files::new(NoMemory);
    for _ in 0..3 {
        refuses(&rt, &mut files, b"a", HashFault::Open(OpenFault::Memory));
    }
}
