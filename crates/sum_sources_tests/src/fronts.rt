//! A source in memory that computes its answers.
ghost use Rattle.std.specs.Prelude.{◌≡◌};
ghost use Rattle.sum_sources.specs.inputs.Told.{told_state, told_view};
ghost use Rattle.sum_sources.specs.sources.{Source.GivesTold, SourceLaws.GivesTold-prop};
ghost use Rattle.sum_sources_tests.specs.Fronts.{fronts_state, tells_fronts};

use sum_sources::{
    Ending, Fault, Input, InputLog, Note, OpenFault, PIECE, ReadNote, Source, SourceCalls,
    SourceLog, Told, next_file,
};

/// The front of a text.
#[derive(Drop)]
pub struct Front<'a> {
    told: Told<'a>,
    log: InputLog,
    ghost same: { log.reads ≡ (told_state (told_view told)).reads },
}

impl<'a> Input for Front<'a> {
    ghost use Rattle.sum_sources.specs.inputs.InputLaws.{told_has_content};

    ghost state = { λ s. record (told_state (told_view s.told)) {
      name = s.log.name;
      nth = s.log.nth;
    } };

    fn read(&mut self, buf: &mut [u8]) -> Result<usize, Fault> {
        let result = self.told.read(buf);
        self.log = self.log.with_note(&ReadNote(buf, &result));
        result
    }

    ghost has_content = { λ s. told_has_content (told_view s.told) };
}

/// A source of which every name is a file: the front of one text, as long as the name, or all of it.
#[derive(Drop)]
pub struct Fronts<'a> {
    text: &'a [u8],
    log: SourceLog,
    ghost gives: { GivesTold tells_fronts (fronts_state text.now log) } by { GivesTold-prop tells_fronts (fronts_state text.now log) },
}

impl<'a> Fronts<'a> {
    /// The source of this text.
    pub fn new(text: &'a [u8]) -> Fronts<'a> {
        Fronts {
            text,
            log: SourceLog::of(&SourceCalls),
        }
    }
}

impl<'a> Source for Fronts<'a> {
    type File = Front<'a>;

    ghost state = { λ s. fronts_state s.text.now s.log };

    ghost tells = { tells_fronts };

    fn open_file(&mut self, name: &[u8]) -> Result<Front<'a>, OpenFault> {
        let log = next_file(&self.log, name);
        self.log = self.log.with_note(&Note::Opened(name));
        let front = &self.text[..name.len().min(self.text.len())];
        let told = Told::new(front, Ending::Whole, PIECE);
        Ok(Front { told, log })
    }

    fn close_file(&mut self, file: Front<'a>) {
        self.log = self.log.with_note(&Note::Closed(&file.log));
    }

    ghost gives_told = { λ s. s.gives };
}
