//! An input and a source that do what real ones may: bytes follow an end or a fault, and a name that is opened again is
//! another file.
ghost use Rattle.std.specs.Prelude.{◌≡◌};
ghost use Rattle.sum_sources.specs.inputs.Input.{empty_reads};

use std::alloc::Allocator;
use std::collections::VecDeque;
use sum_sources::{
    Ending, Fault, Input, InputCalls, InputLog, NoRoom, Note, OpenFault, Phase, ReadNote, Source,
    SourceCalls, SourceLog, Told, next_file,
};

/// An input of two parts. After the end or the fault of the first part it goes on with the second.
#[derive(Drop)]
pub struct TwoParts<'a> {
    told: Told<'a>,
    second: Option<Told<'a>>,
    phase: Phase,
    log: InputLog,
}

impl<'a> TwoParts<'a> {
    /// The input of `content` that has this ending after `place` bytes, and goes on with the others. A read gives at
    /// most `piece` (0 counts as 1).
    pub fn new(content: &'a [u8], place: usize, ending: Ending, piece: usize) -> TwoParts<'a>
        ensures { (⟦<TwoParts<'a> as Input>⟧.state result).reads ≡ empty_reads }
    {
        TwoParts::opened(content, place, ending, piece, InputLog::of(&InputCalls))
    }

    fn opened(
        content: &'a [u8],
        place: usize,
        ending: Ending,
        piece: usize,
        log: InputLog,
    ) -> TwoParts<'a>
        ensures { result.log ≡ log }
    {
        let (first, second) = content.split_at(place.min(content.len()));
        TwoParts {
            told: Told::new(first, ending, piece),
            second: Some(Told::new(second, Ending::Whole, piece)),
            phase: Phase::Unfinished,
            log,
        }
    }

    /// How far it was read.
    pub fn phase(&self) -> Phase {
        self.phase
    }
}

impl<'a> Input for TwoParts<'a> {
    ghost use Rattle.std.specs.Prelude.{None};
    ghost use Rattle.sum_sources.specs.inputs.InputLaws.{untold_has_content};

    ghost state = { λ s. record s.log { told = None } };

    fn read(&mut self, buf: &mut [u8]) -> Result<usize, Fault> {
        let result = self.told.read(buf);
        self.log = self.log.with_note(&ReadNote(buf, &result));
        self.phase = self.phase.after(buf.len(), &result);
        let goes_on = match result {
            Ok(n) => n == 0 && !buf.is_empty(),
            Err(_) => true,
        };
        if goes_on && let Some(second) = self.second.take() {
            self.told = second;
        }
        result
    }

    ghost has_content = { λ s. untold_has_content s.log };
}

/// A source whose files follow one another, whatever the names. After the last, no file is found.
#[derive(Drop)]
pub struct InTurn<'a, A: Allocator> {
    // each with the place of its ending
    files: VecDeque<(&'a [u8], usize, Ending), A>,
    piece: usize,
    log: SourceLog,
    opened: u64,
    ended: u64,
    failed: u64,
}

impl<'a, A: Allocator> InTurn<'a, A> {
    /// A source without files. They give at most `piece` bytes a read (0 counts as 1).
    pub fn new(alloc: A, piece: usize) -> InTurn<'a, A> {
        InTurn {
            files: VecDeque::new(alloc),
            piece,
            log: SourceLog::of(&SourceCalls),
            opened: 0,
            ended: 0,
            failed: 0,
        }
    }

    /// Adds a file of `content` that has this ending after `place` bytes, and goes on with the others.
    pub fn add(&mut self, content: &'a [u8], place: usize, ending: Ending) -> Result<(), NoRoom> {
        match self.files.push_back((content, place, ending)) {
            Ok(()) => Ok(()),
            Err(_) => Err(NoRoom),
        }
    }

    /// How many files were opened, how many of these were closed at their end, and how many at their fault.
    pub fn counts(&self) -> (u64, u64, u64) {
        (self.opened, self.ended, self.failed)
    }
}

impl<'a, A: Allocator> Source for InTurn<'a, A> {
    type File = TwoParts<'a>;

    ghost use Rattle.std.specs.Prelude.{[]};
    ghost use Rattle.sum_sources.specs.sources.{SourceLaws.untold_gives};
    ghost use Rattle.sum_sources.specs.sources.SourceLog.{no_answer};

    ghost state = { λ s. record s.log { told = [] } };

    ghost tells = { no_answer };

    fn open_file(&mut self, name: &[u8]) -> Result<TwoParts<'a>, OpenFault> {
        let Some((content, place, ending)) = self.files.pop_front() else {
            self.log = self.log.with_note(&Note::Failed(name, Fault::NotFound));
            return Err(OpenFault::Fault(Fault::NotFound));
        };
        let log = next_file(&self.log, name);
        self.log = self.log.with_note(&Note::Opened(name));
        self.opened = self.opened.saturating_add(1);
        Ok(TwoParts::opened(content, place, ending, self.piece, log))
    }

    fn close_file(&mut self, file: TwoParts<'a>) {
        self.log = self.log.with_note(&Note::Closed(&file.log));
        match file.phase {
            Phase::Ended(Ending::Whole) => self.ended = self.ended.saturating_add(1),
            Phase::Ended(Ending::Broken(_)) => self.failed = self.failed.saturating_add(1),
            Phase::Unfinished | Phase::Past => {}
        }
    }

    ghost gives_told = { λ s. untold_gives s.log };
}
