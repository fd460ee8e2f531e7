//! Tests of the run and of the program, over known input and known files, into known sinks.
ghost use Rattle.std.specs.Prelude.{◌≡◌};
ghost use Rattle.sum_sources.specs.inputs.Input.{empty_reads};

mod growths;
mod hostile;
mod program;
mod stops;
mod worked_examples;

use digests::run;
use std::alloc::{Allocator, Global};
use std::process::Abort;
use std::test::Fail;
use sum_engine::{Stop, Streams, check_one};
use sum_lines::ToldSink;
use sum_sources::{Answer, Ending, Fault, Input, NoRoom, Stdin, Told, ToldSource, WithStdin};
use sum_words::{Request, Tool, Words, read_words};

// A manifest with a line of each verdict: right, a comment, bad, missing, wrong.
const VERDICTS: &str = "$M  a\n#c\njunk\n$M *x\n$M  e\n";

// What its check writes on standard output and on standard error, and the first line of that.
const REPORTS: &str = "a: OK\nx: FAILED open or read\ne: FAILED\n";

const WARNINGS: &str = "md5sum: x: No such file or directory\n\
                        md5sum: WARNING: 1 line is improperly formatted\n\
                        md5sum: WARNING: 1 listed file could not be read\n\
                        md5sum: WARNING: 1 computed checksum did NOT match\n";

const MISSING: &str = "md5sum: x: No such file or directory\n";

// What standard input or a file gives, before it is spelled; and a file's name with that.
type Given<'a> = (&'a str, Ending);

type File<'a> = (&'a str, Given<'a>);

const NOTHING: Given<'static> = ("", Ending::Whole);

const ABC: Given<'static> = ("abc", Ending::Whole);

// Bytes, and then an error of input or output.
fn broken(text: &str) -> Given<'_> {
    (text, Ending::Broken(Fault::Other))
}

// A line, what it writes on standard output and on standard error, and its status.
type Example<'a> = (&'a str, &'a str, &'a str, u8);

// The text, with published digests (of MD5, SHA-2 and BLAKE2b) in place of their names.
fn spell(alloc: Global, text: &str) -> Result<String, Fail> {
    let digests = [
        ("$M", "900150983cd24fb0d6963f7d28e17f72"),
        ("$E", "d41d8cd98f00b204e9800998ecf8427e"),
        (
            "$S",
            "ba7816bf8f01cfea414140de5dae2223b00361a396177a9cb410ff61f20015ad",
        ),
        (
            "$B",
            "0e5751c026e543b2e8ab2eb06099daa1d1e5df47778f7787faab45cdf12fe3a8",
        ),
    ];
    let mut all = String::from_str(alloc, text)?;
    for (name, digest) in digests {
        all = all.as_str().replace(alloc, name, digest)?;
    }
    Ok(all)
}

// A text, repeated this many times. It has no contract, so that no proof computes it.
fn repeat(alloc: Global, text: &str, count: usize) -> Result<String, Fail> {
    Ok(text.repeat(alloc, count)?)
}

// The contents of the files, as `spell` writes them out.
fn spell_all(alloc: Global, files: &[File]) -> Result<Vec<String>, Fail> {
    let mut contents = Vec::new(alloc);
    for (_, (content, _)) in files {
        contents.push(spell(alloc, content)?)?;
    }
    Ok(contents)
}

// A source of the files that most examples have (`a`, `e` and two names with special bytes), and of these. There is no
// `x`.
fn source_of<'a>(
    alloc: Global,
    piece: usize,
    files: &[File],
    contents: &'a [String],
) -> Result<ToldSource<'a, Global>, NoRoom> {
    let mut source = ToldSource::new(alloc, piece);
    source.add(b"a", Answer::Content(b"abc", Ending::Whole))?;
    source.add(b"e", Answer::Content(b"", Ending::Whole))?;
    source.add(b"q\\\nz", Answer::Content(b"abc", Ending::Whole))?;
    source.add(b"a\rb", Answer::Content(b"abc", Ending::Whole))?;
    for ((name, (_, ending)), content) in files.iter().zip(contents) {
        source.add(
            name.as_bytes(),
            Answer::Content(content.as_bytes(), *ending),
        )?;
    }
    Ok(source)
}

// What a run works on.
type Stage<'a, A, const N: usize> = Streams<
    WithStdin<Told<'a>, ToldSource<'a, A>>,
    ToldSink<N>,
    ToldSink<N>,
>;

fn stage<'a, A: Allocator + Copy, const N: usize>(
    input: Told<'a>,
    source: ToldSource<'a, A>,
) -> Stage<'a, A, N>
    requires { (⟦<Told<'a> as Input>⟧.state input).reads ≡ empty_reads }
{
    stage_until(input, source, (N, N))
}

// What a run works on, with outputs that stop after this many bytes.
fn stage_until<'a, A: Allocator + Copy, const N: usize>(
    input: Told<'a>,
    source: ToldSource<'a, A>,
    stops: (usize, usize),
) -> Stage<'a, A, N>
    requires { (⟦<Told<'a> as Input>⟧.state input).reads ≡ empty_reads }
{
    Streams::new(
        WithStdin::new(Stdin::new(input), source),
        ToldSink::new(stops.0),
        ToldSink::new(stops.1),
    )
}

// The tool and the words of a line, which are separated by single spaces, or `None` if there is no room for the words.
fn words_of<A: Allocator + Copy>(alloc: A, line: &str) -> Option<(Tool, Words<A>)> {
    let mut parts = line.split(' ');
    let tool = Tool::from_word(parts.next()?)?;
    let mut words = Words::new(alloc);
    for word in parts {
        words.add(word).ok()?;
    }
    Some((tool, words))
}

// Runs a line, if there is room for its words. It has no contract, so its callers' proofs don't meet that of `run`.
fn run_line<A: Allocator + Copy, const N: usize>(
    alloc: A,
    line: &str,
    streams: &mut Stage<A, N>,
) -> Option<Result<u8, Stop>> {
    let (tool, words) = words_of(alloc, line)?;
    Some(run(alloc, tool, &words, streams))
}

// The status by `check_one`, if the line checks one manifest. It has no contract, either.
fn check_line<const N: usize>(
    alloc: Global,
    line: &str,
    streams: &mut Stage<Global, N>,
) -> Option<Result<u8, Stop>> {
    let (tool, words) = words_of(alloc, line)?;
    let Ok(Request::Check(settings, mut operands)) = read_words(tool, &words) else {
        return None;
    };
    let name = operands.next()?;
    if operands.next().is_some() {
        return None;
    }
    match check_one(alloc, settings, tool.name(), name, streams) {
        Ok(good) => Some(Ok(if good { 0 } else { 1 })),
        Err(stop) => Some(Err(stop)),
    }
}

// What a run wrote on standard output and on standard error.
fn wrote<'s, A: Allocator + Copy, const N: usize>(
    streams: &'s Stage<'_, A, N>,
) -> (&'s [u8], &'s [u8]) {
    let outputs = &streams.outputs;
    (outputs.out.get_ref().bytes(), outputs.err.get_ref().bytes())
}

// Asserts that a run with this outcome wrote and returned what the example says.
fn assert_ended<A: Allocator + Copy, const N: usize>(
    rt: &(impl Abort + AllocGlobal),
    streams: &Stage<A, N>,
    outcome: Option<Result<u8, Stop>>,
    (line, out, err, status): Example,
) -> Result<(), Fail> {
    let (out, err) = (spell(rt.alloc(), out)?, spell(rt.alloc(), err)?);
    assert_eq!(rt;
        (outcome, wrote(streams)),
        (Some(Ok(status)), (out.as_bytes(), err.as_bytes())),
        "{line}"
    );
    Ok(())
}

// Asserts that a line does as its example says over this input, the usual files and these, read in pieces of at most
// this many bytes.
fn assert_example(
    rt: &(impl Abort + AllocGlobal),
    (input, ending): (&[u8], Ending),
    files: &[File],
    contents: &[String],
    piece: usize,
    example: Example,
) -> Result<(), Fail> {
    let source = source_of(rt.alloc(), piece, files, contents)?;
    let mut streams: Stage<Global, 1024> = stage(Told::new(input, ending, piece), source);
    let outcome = run_line(rt.alloc(), example.0, &mut streams);
    assert_ended(rt, &streams, outcome, example)?;
    let source = source_of(rt.alloc(), piece, files, contents)?;
    let mut streams: Stage<Global, 1024> = stage(Told::new(input, ending, piece), source);
    match check_line(rt.alloc(), example.0, &mut streams) {
        Some(outcome) => assert_ended(rt, &streams, Some(outcome), example),
        None => Ok(()),
    }
}

// Asserts that each line does as its example says, in whatever pieces its input is read.
fn assert_examples(
    rt: &(impl Abort + AllocGlobal),
    (input, ending): Given,
    files: &[File],
    examples: &[Example],
) -> Result<(), Fail> {
    let input = spell(rt.alloc(), input)?;
    let contents = spell_all(rt.alloc(), files)?;
    for example in examples {
        for piece in [1, 100, 8192] {
            let given = (input.as_bytes(), ending);
            assert_example(rt, given, files, &contents, piece, *example)?;
        }
    }
    Ok(())
}
