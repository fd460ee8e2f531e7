//! The lines of a manifest, one at a time.
ghost use Rattle.digest_kinds.specs.Bytes.{LIMIT};
ghost use Rattle.std.specs.Prelude.{◌≡◌, ◌≤◌, ◌<◌, ◌+◌, [], true, false, length, None, Some, Err, IfOk, IfSome, OnErr};
ghost use Rattle.std.specs.{Prelude.if◌then◌else◌, Str.Lines.strip_carriage_return};

use crate::inputs::size_limit::read_limited;
use crate::{Fault, Input, NoRoom, PIECE, Phase};
use memchr::memchr;
use std::alloc::{AllocError, Allocator};
use std::marker::Model;
use thiserror::Error;

/// What `next_line` found.
#[derive(Clone, Copy, Debug, PartialEq, Eq)]
pub enum Next {
    /// The next line.
    Line,
    /// No line remains.
    NoMore,
}

/// Why there is no next line. `Fault`: the input ended with this fault, after all lines that a newline ended. `Memory`:
/// there was no memory for the line.
#[derive(Clone, Copy, Debug, PartialEq, Eq, Error)]
pub enum LineStop {
    #[error(transparent)]
    Fault(Fault),
    #[error("memory exhausted")]
    Memory,
}

impl From<NoRoom> for LineStop {
    ghost use Rattle.std.specs.Prelude.{◌≡◌};
    ghost use Rattle.sum_sources.specs.declared.line_reader.LineStop.TheVariants.{Memory};

    ghost from_gives = { λ _ stop. stop ≡ Memory };

    fn from(_no_room: NoRoom) -> LineStop {
        LineStop::Memory
    }
}

#[derive(Clone, Copy, Debug, PartialEq, Eq)]
enum ReaderState {
    Active,
    Done,
    Stopped(LineStop),
}

/// Reads an input line by line, at most [`PIECE`](crate::PIECE) bytes ahead.
#[derive(Debug, Drop)]
pub struct LineReader<I> {
    input: I,
    // How many bytes were read from the input.
    taken: u64,
    // What was read ahead is `buf[start..end]`.
    buf: [u8; PIECE],
    start: usize,
    end: usize,
    lines: u64,
    state: ReaderState,
}

impl<I> Model for LineReader<I> {
    ghost use Rattle.sum_sources.specs.LineReader.{LineReaderValue};

    ghost Value = { LineReaderValue I };

    ghost use Rattle.sum_sources.specs.LineReader.{line_reader_view, IsSoundReader};

    ghost view = { λ s. line_reader_view s };

    ghost invariant = { λ s. IsSoundReader s };
}

// Drops the one carriage return at the end of the line, if there is one.
fn drop_return<A: Allocator>(line: &mut Vec<u8, A>)
    ensures { line.new.items ≡ strip_carriage_return line.old.items }
{
    if line.last() == Some(&b'\r') {
        line.pop();
    }
}

impl<I: Input> LineReader<I> {
    ghost use Rattle.sum_sources.specs.LineReader.{consumed_count, IsBounded, AdvancesLines, IsReading, ReadsOn};
    ghost use Rattle.sum_sources.specs.LineReader.{TakesNextLine};
    ghost use Rattle.sum_sources.specs.private.LineReader.{FillsReader, TakesPiece};
    ghost use Rattle.sum_sources.specs.{inputs.Input.Unfinished};
    ghost use Rattle.sum_sources.specs.LineReader.{lines_after};
    ghost use Rattle.sum_sources.specs.private.SizeLimit.{AddsPast, CountsBytes};

    /// Creates a reader of the lines of `input`. If the input has `LIMIT` bytes or more, its first `LIMIT - 1` bytes
    /// count, and then `Fault::Other`.
    pub fn new(input: I) -> Self
        ensures state { result
            ≡ record { input = input; ahead = []; taken = 0; lines = 0; final_answer = None } }
        // If the input hasn't ended: the lines of what remains of it.
        ensures reading { (I.state input).reads.phase ≡ Unfinished → IsReading I.state result }
    {
        LineReader {
            input,
            taken: 0,
            buf: [0; PIECE],
            start: 0,
            end: 0,
            lines: 0,
            state: ReaderState::Active,
        }
    }

    /// Returns how many bytes were read from the input.
    pub fn taken(&self) -> u64
        ensures value { result ≡ self.now.taken }
        ensures at_most { result ≤ LIMIT }
    {
        self.taken
    }

    /// Returns how many lines were returned so far.
    pub fn lines(&self) -> u64
        ensures value { result ≡ self.now.lines }
        ensures at_most { result ≤ self.now.taken }
    {
        self.lines
    }

    /// Returns the input, past the bytes that were read from it. Bytes that were read ahead of the last line are lost.
    pub fn into_inner(self) -> I
        ensures input { result ≡ self.input }
    {
        self.input
    }

    // Reads into the empty buffer, and returns how many bytes: none if the input has ended. A fault is final.
    fn fill(&mut self) -> Result<usize, Fault>
        requires empty { self.old.ahead ≡ [] }
        requires going { self.old.final_answer ≡ None }

        // What the input gave.
        ensures reads { AddsPast self.old.taken (I.state self.old.input).reads
            (I.state self.new.input).reads self.new.ahead result }
        ensures counts { CountsBytes self.old.taken self.new.taken (I.state self.old.input)
            (I.state self.new.input) }

        // What the reader has then.
        ensures reader { FillsReader self.old self.new result }
        ensures lines { self.new.lines ≡ self.old.lines }
    {
        self.start = 0;
        self.end = 0;
        self.end = match read_limited(&mut self.input, &mut self.taken, &mut self.buf) {
            Ok(size) => size,
            Err(fault) => {
                self.state = ReaderState::Stopped(LineStop::Fault(fault));
                return Err(fault);
            }
        };
        Ok(self.end)
    }

    // Moves the buffer's bytes up to its first newline to the line's end, and drops that newline. If the buffer has no
    // newline, all its bytes are moved, and the result is false.
    fn take_piece<A: Allocator>(&mut self, line: &mut Vec<u8, A>) -> Result<bool, AllocError>
        requires going { self.old.final_answer ≡ None }

        // What moves to the line.
        ensures piece { IfOk result (λ ended.
            TakesPiece ended self.old.ahead self.new.ahead line.old.items line.new.items) }
        ensures consumed { IfOk result (λ ended. consumed_count self.new + length line.old.items
            ≡ consumed_count self.old + length line.new.items + (if ended then 1 else 0)) }

        // Without memory, nothing moves, and something is ahead.
        ensures err { OnErr result (self.new ≡ self.old) }
        ensures ahead { OnErr result (0 < length self.old.ahead) }

        // What stays, and what bounds it.
        ensures same { self.new ≡ record self.old { ahead = self.new.ahead } }
        ensures taken { self.new.taken < LIMIT }
        ensures few { length self.old.ahead ≤ self.new.taken }
    {
        if self.start == self.end {
            return Ok(false);
        }
        let chunk = &self.buf[self.start..self.end];
        match memchr(b'\n', chunk) {
            Some(at) => {
                line.extend_from_slice(&chunk[..at])?;
                self.start += at + 1;
                Ok(true)
            }
            None => {
                line.extend_from_slice(chunk)?;
                self.start = self.end;
                Ok(false)
            }
        }
    }

    // Reads the next line into a line that is empty.
    fn read_on<A: Allocator>(&mut self, line: &mut Vec<u8, A>) -> Result<Next, LineStop>
        requires empty { line.old.items ≡ [] }
        requires going { self.old.final_answer ≡ None }

        // The next line of what remained.
        ensures line { IsReading I.state self.old
            → ReadsOn I.state self.old self.new (TakesNextLine self.old self.new result line.new.items) }

        // The line is counted later.
        ensures reader { AdvancesLines I.state self.old
            (record self.new { lines = lines_after self.old.lines result }) result }
        ensures lines { self.new.lines ≡ self.old.lines }
        ensures some { result ≡ Ok Next.Line → consumed_count self.old < consumed_count self.new }
    {
        loop {
            match self.take_piece(line) {
                Ok(true) => {
                    drop_return(line);
                    return Ok(Next::Line);
                }
                Ok(false) => {}
                Err(_) => {
                    self.state = ReaderState::Stopped(LineStop::Memory);
                    return Err(LineStop::Memory);
                }
            }
            match self.fill() {
                Ok(0) => {
                    self.state = ReaderState::Done;
                    if line.is_empty() {
                        return Ok(Next::NoMore);
                    }
                    drop_return(line);
                    return Ok(Next::Line);
                }
                Ok(_) => {}
                Err(fault) => return Err(LineStop::Fault(fault)),
            }
        }
    }

    /// Puts the next line into `line`, without its newline and without one carriage return at its end. The previous
    /// content of `line` doesn't matter.
    ///
    /// Returns `NoMore` if no line remains and the input ended whole, `LineStop::Fault` if it ended with that fault,
    /// and `LineStop::Memory` if memory for the line was refused; bytes of the manifest were then still to come. After
    /// any of these, the content of `line` is unspecified, and every later call returns the same without reading the
    /// input.
    pub fn next_line<A: Allocator>(&mut self, line: &mut Vec<u8, A>) -> Result<Next, LineStop>
        // For each content that the reads since `new` fit: the next line of what remained.
        ensures line { IsReading I.state self.old
            → ReadsOn I.state self.old self.new (TakesNextLine self.old self.new result line.new.items) }

        // A final answer is returned again, and the reader is unchanged.
        ensures repeats { IfSome self.old.final_answer (λ answer. (result ≡ answer)
            × (self.new ≡ self.old)) }

        // The lines counted, and which answers are final.
        ensures reader { AdvancesLines I.state self.old self.new result }

        // At most `PIECE` bytes are read ahead of the lines, and no count passes its limit.
        ensures bounds { IsBounded self.new }
    {
        match self.state {
            ReaderState::Done => return Ok(Next::NoMore),
            ReaderState::Stopped(stop) => return Err(stop),
            ReaderState::Active => {}
        }
        line.clear();
        let result = self.read_on(line);
        if let Ok(Next::Line) = result {
            self.lines += 1;
        }
        result
    }
}
