//! A source of files in memory.
ghost use Rattle.std.specs.Option.{option_map};
ghost use Rattle.std.specs.Prelude.{◌≡◌, ◌≤◌, ◌++◌, ◌∷◌, [], OnOk, OnErr, length, map, slice_get};
ghost use Rattle.std.specs.Vec.{VecUnchanged};
ghost use Rattle.sum_sources.specs.sources.Source.{GivesTold, names_of, answer_of_first, times};
ghost use Rattle.sum_sources.specs.sources.SourceLaws.{GivesTold-prop};
ghost use Rattle.sum_sources.specs.sources.StoredAnswer.{answer_view, state_with_pairs};

use crate::sources::source_log::{Note, SourceCalls, SourceLog, next_file};
use crate::sources::stored_answer::{StoredAnswer, answer_to};
use crate::{Ending, Fault, Input, NoRoom, OpenFault, Source, Told};
use std::alloc::Allocator;

/// What a source in memory answers for a name.
#[derive(Clone, Copy, Debug)]
pub enum Answer<'a> {
    /// The file can't be opened.
    Fault(Fault),
    /// The file has these bytes, and then this ending.
    Content(&'a [u8], Ending),
}

/// A source in memory: a list of names, each with its answer.
#[derive(Debug, Drop)]
pub struct ToldSource<'a, A: Allocator + Copy> {
    pairs: Vec<StoredAnswer<'a, A>, A>,
    asked: Vec<Vec<u8, A>, A>,
    alloc: A,
    piece: usize,
    log: SourceLog,
    ghost names: { map (λ v. v.items) asked.items ≡ names_of log.openings },
    ghost gives: { GivesTold answer_of_first (state_with_pairs pairs.items log) } by { GivesTold-prop answer_of_first (state_with_pairs pairs.items log) },
}

// How often a name is among these.
fn times<A: Allocator>(names: &[Vec<u8, A>], name: &[u8]) -> usize
    ensures value { result ≡ times name.now (map (λ v. v.items) names.now) }
    ensures at_most { result ≤ length names.now }
{
    names
        .iter()
        .filter(|other| other.as_slice() == name)
        .count()
}

impl<'a, A: Allocator + Copy> ToldSource<'a, A> {
    ghost use Rattle.sum_sources.specs.sources.{ToldSource.told_source_state};
    ghost use Rattle.sum_sources.specs.sources.SourceLog.{no_openings};

    /// Creates a source without names, whose files give at most `piece` bytes per read (0 counts as 1).
    pub fn new(alloc: A, piece: usize) -> ToldSource<'a, A>
        ensures state { told_source_state result ≡ no_openings }
    {
        ToldSource {
            pairs: Vec::new(alloc),
            asked: Vec::new(alloc),
            alloc,
            piece: piece.max(1),
            log: SourceLog::of(&SourceCalls),
        }
    }

    /// Adds a pair of a name and its answer. It answers the openings of that name from now on, if no earlier pair has
    /// that name. Returns `NoRoom` if memory is refused; the pairs are then unchanged.
    pub fn add(&mut self, name: &[u8], answer: Answer<'a>) -> Result<(), NoRoom>
        ensures ok { OnOk result (let s = told_source_state self.old in
            told_source_state self.new ≡ record s {
              told = s.told ++ record {
                name = name.now;
                from = times name.now (names_of s.openings);
                answer = Some (answer_view answer.entry);
              } ∷ [];
            }) }
        ensures err { OnErr result (told_source_state self.new ≡ told_source_state self.old) }
    {
        let from = times(&self.asked, name);
        let name = Vec::from_slice(self.alloc, name)?;
        self.pairs.push(StoredAnswer { name, answer, from })?;
        Ok(())
    }

    /// Returns the name at place `i`, counted from 0, of the names opened so far.
    pub fn asked_name(&self, i: usize) -> Option<&[u8]>
        ensures name { option_map (λ n. n.now) result
            ≡ slice_get (names_of (told_source_state self.now).openings) i }
    {
        Some(self.asked.get(i)?.as_slice())
    }
}

// Adds a name to the names opened. Returns `NoRoom` if memory is refused; they are then unchanged.
fn add_name<A: Allocator + Copy>(
    alloc: A,
    asked: &mut Vec<Vec<u8, A>, A>,
    name: &[u8],
) -> Result<(), NoRoom>
    ensures ok { OnOk result (map (λ v. v.items) asked.new.items
        ≡ map (λ v. v.items) asked.old.items ++ name.now ∷ []) }
    ensures err { OnErr result (VecUnchanged asked.old asked.new) }
{
    asked.push(Vec::from_slice(alloc, name)?)?;
    Ok(())
}

impl<'a, A: Allocator + Copy> Source for ToldSource<'a, A> {
    type File = Told<'a>;

    ghost use Rattle.sum_sources.specs.sources.ToldSource.{told_source_state};

    ghost state = { told_source_state };

    ghost tells = { answer_of_first };

    fn open_file(&mut self, name: &[u8]) -> Result<Told<'a>, OpenFault> {
        let before = times(&self.asked, name);
        if let Err(NoRoom) = add_name(self.alloc, &mut self.asked, name) {
            self.log = self.log.with_note(&Note::Refused);
            return Err(OpenFault::Memory);
        }
        match answer_to(&self.pairs, name, before) {
            Answer::Fault(fault) => {
                self.log = self.log.with_note(&Note::Failed(name, fault));
                Err(OpenFault::Fault(fault))
            }
            Answer::Content(content, ending) => {
                let file = Told::opened(content, ending, self.piece, next_file(&self.log, name));
                self.log = self.log.with_note(&Note::Opened(name));
                Ok(file)
            }
        }
    }

    fn close_file(&mut self, file: Told<'a>) {
        self.log = self.log.with_note(&Note::Closed(file.log()));
    }

    ghost gives_told = { λ s. s.gives };
}
