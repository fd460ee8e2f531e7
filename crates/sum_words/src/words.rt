//! Lists of words, and the iterator over one.
ghost use Rattle.std.specs.{Iterator.YieldsFirstRef, Iterator.item_count, Option.option_copied};
ghost use Rattle.std.specs.Prelude.{◌≡◌, ◌↔◌, ◌<◌, [], ◌∷◌, ◌++◌, IsTrue, OnOk, OnErr, OnSome, length, drop, slice_get};
ghost use Rattle.std.specs.Prelude.{slice_index};
ghost use Rattle.sum_words.specs.Words.{pieces_cut, CutsAt};

use std::alloc::Allocator;
use std::marker::Model;
use sum_settings::NoRoom;

/// A list of words, seen as a list of byte strings. A word may contain any bytes.
#[derive(Debug, Drop)]
pub struct Words<A: Allocator> {
    // The words, one after another.
    bytes: Vec<u8, A>,
    // The place where each word ends.
    ends: Vec<usize, A>,
}

impl<A: Allocator> Model for Words<A> {
    ghost use Rattle.digest_kinds.specs.Bytes.{ByteString};
    ghost use Rattle.std.specs.Prelude.{List};
    ghost use Rattle.sum_words.specs.Words.{pieces_cut, CutsAt};

    ghost Value = { List ByteString };

    ghost view = { λ w. pieces_cut w.bytes.items 0 w.ends.items };

    ghost invariant = { λ w. CutsAt w.bytes.items 0 w.ends.items };
}

impl<A: Allocator + Copy> Words<A> {
    /// Creates an empty list.
    pub fn new(alloc: A) -> Self
        ensures words { result ≡ [] }
    {
        Words {
            bytes: Vec::new(alloc),
            ends: Vec::new(alloc),
        }
    }
}

impl<A: Allocator> Words<A> {
    /// Adds a string at the end. Returns `NoRoom` if memory is refused; the list is then unchanged.
    pub fn add(&mut self, word: &str) -> Result<(), NoRoom>
        ensures ok { OnOk result (self.new ≡ self.old ++ word.now ∷ []) }
        ensures err { OnErr result (self.new ≡ self.old) }
    {
        self.add_bytes(word.as_bytes())
    }

    /// Adds a word at the end. Returns `NoRoom` if memory is refused; the list is then unchanged.
    #[tactic(auto, using(crate::proofs::WordBytesLemmas::pieces))]
    pub fn add_bytes(&mut self, word: &[u8]) -> Result<(), NoRoom>
        ensures ok { OnOk result (self.new ≡ self.old ++ word.now ∷ []) }
        ensures err { OnErr result (self.new ≡ self.old) }
    {
        let before = self.bytes.len();
        self.bytes.extend_from_slice(word)?;
        if self.ends.push(self.bytes.len()).is_err() {
            self.bytes.truncate(before);
            return Err(NoRoom);
        }
        Ok(())
    }

    /// Returns how many words the list has.
    #[tactic(auto, using(crate::proofs::WordBytesLemmas::pieces))]
    pub fn len(&self) -> usize
        ensures value { result ≡ length self.now }
    {
        self.ends.len()
    }

    /// Returns whether the list is empty.
    pub fn is_empty(&self) -> bool
        ensures value { IsTrue result ↔ (self.now ≡ []) }
    {
        self.len() == 0
    }

    /// Returns an iterator over the words.
    pub fn iter(&self) -> WordsIter<'_>
        ensures words { result ≡ self.now }
    {
        WordsIter {
            bytes: self.bytes.as_slice(),
            ends: self.ends.as_slice(),
            at: 0,
        }
    }

    /// Returns the word at this place, counted from 0, or `None` past the last.
    pub fn get(&self, i: usize) -> Option<&[u8]>
        ensures word { option_copied result ≡ slice_get self.now i }
    {
        piece_at(self.bytes.as_slice(), self.ends.as_slice(), i)
    }
}

/// An iterator over a list of words, seen as the list of those that remain.
#[derive(Debug, Drop)]
pub struct WordsIter<'a> {
    bytes: &'a [u8],
    ends: &'a [usize],
    at: usize,
}

impl<'a> Model for WordsIter<'a> {
    ghost use Rattle.digest_kinds.specs.Bytes.{ByteString};
    ghost use Rattle.std.specs.Prelude.{List, drop};
    ghost use Rattle.sum_words.specs.Words.{pieces_cut, CutsAt};

    ghost Value = { List ByteString };

    ghost view = { λ i. drop i.at (pieces_cut i.bytes.now 0 i.ends.now) };

    ghost invariant = { λ i. CutsAt i.bytes.now 0 i.ends.now };
}

impl<'a> Iterator for WordsIter<'a> {
    type Item = &'a [u8];

    ghost next_gives = { YieldsFirstRef (λ words. words) };

    ghost remaining = { item_count (λ words. words) };

    #[tactic(auto, using(crate::proofs::WordBytesLemmas::drop_at_none, crate::proofs::WordBytesLemmas::drop_at_some))]
    fn next(&mut self) -> Option<&'a [u8]> {
        let word = piece_at(self.bytes, self.ends, self.at)?;
        self.at += 1;
        Some(word)
    }
}

// The piece of the bytes at a place, or `None` past the last.
#[tactic(auto, using(crate::proofs::WordBytesLemmas::piece_steps))]
fn piece_at<'a>(bytes: &'a [u8], ends: &'a [usize], i: usize) -> Option<&'a [u8]>
    requires { CutsAt bytes.now 0 ends.now }
    ensures piece { option_copied result ≡ slice_get (pieces_cut bytes.now 0 ends.now) i }
    ensures within { OnSome result (i < usize.MAX) }
{
    let end = *ends.get(i)?;
    let start = start_of(ends, i);
    Some(&bytes[start..end])
}

// The start of the piece at a place: the end of the piece before it.
fn start_of(ends: &[usize], i: usize) -> usize
    requires { i < length ends.now }
    ensures { result ≡ slice_index (0 ∷ ends.now) i }
{
    if i == 0 { 0 } else { ends[i - 1] }
}
