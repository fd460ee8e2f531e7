//! The items of a tool's words, and those that are operands.
ghost use Rattle.digest_kinds.specs.Bytes.{ByteString};
ghost use Rattle.std.specs.Iterator.{YieldsFirstBy, YieldsFirstRef, item_count};
ghost use Rattle.std.specs.{List.starts_with, Option.option_copied};
ghost use Rattle.std.specs.Prelude.{◌≡◌, ◌==◌, List, [], ◌∷◌, IsTrue, MatchOption, drop, length, false, filter_map};
ghost use Rattle.std.specs.Str.{chars};
ghost use Rattle.sum_words.specs.declared.tool.Tool.{Tool};
ghost use Rattle.sum_words.specs.parsing.Items.{a_word, name_part, value_part, long_option, cluster, is_option_word};
ghost use Rattle.sum_words.specs.parsing.{Items.items_from, Items.operand_in, Options.name_or_fault};
ghost use Rattle.sum_words.specs.private.Items.{attached_value, remaining_items, step_items, item_value};

use crate::parsing::options::{Flag, Spelling};
use crate::parsing::word_fault::WordFault;
use crate::tool::Tool;
use crate::words::{Words, WordsIter};
use std::alloc::Allocator;
use std::marker::Model;

/// An item of words: an option without a value, the value of `--length`, an operand, or a fault.
#[derive(Clone, Copy, Debug, PartialEq, Eq)]
pub(crate) enum Item<'a> {
    Flag(Flag),
    Length(&'a [u8]),
    Operand(&'a [u8]),
    Fault(WordFault<'a>),
}

/// An iterator over the items of a tool's words, seen as the list of those that remain. No item follows a fault.
#[derive(Debug, Drop)]
pub(crate) struct Items<'a> {
    tool: Tool,
    words: WordsIter<'a>,
    state: ParserState<'a>,
}

// What is read next: a whole word, the rest of a cluster, only operands, or nothing.
#[derive(Clone, Copy, Debug)]
enum ParserState<'a> {
    Word,
    Cluster(char, &'a str),
    OnlyOperands,
    Done,
}

// The step of one option or word: an item, and what is read next; or an option whose value is the next word; or all
// further words are operands.
#[derive(Clone, Copy)]
enum ParserStep<'a> {
    Item(Item<'a>, ParserState<'a>),
    Value(Spelling),
    OnlyOperands,
}

impl<'a> Model for Items<'a> {
    ghost use Rattle.std.specs.Prelude.{List};
    ghost use Rattle.sum_words.specs.{parsing.Items.ItemValue, private.Items.remaining_items};

    ghost Value = { List ItemValue };

    ghost view = { λ i. remaining_items i.tool i.state i.words };
}

impl<'a> Items<'a> {
    /// Creates an iterator over all items of a tool's words.
    pub(crate) fn new<A: Allocator>(tool: Tool, words: &'a Words<A>) -> Items<'a>
        ensures { result ≡ items_from tool words.now a_word }
    {
        Items {
            tool,
            words: words.iter(),
            state: ParserState::Word,
        }
    }
}

impl<'a> Iterator for Items<'a> {
    type Item = Item<'a>;

    ghost next_gives = { YieldsFirstBy item_value (λ items. items) };

    ghost remaining = { item_count (λ items. items) };

    fn next(&mut self) -> Option<Item<'a>> {
        let step = next_step(self.tool, &mut self.words, self.state)?;
        apply_step(self.tool, &mut self.words, &mut self.state, step)
    }
}

// The step of what is read next, or `None` if no item remains.
fn next_step<'a>(
    tool: Tool,
    words: &mut WordsIter<'a>,
    state: ParserState<'a>,
) -> Option<ParserStep<'a>>
    ensures { MatchOption result ((remaining_items tool state.entry words.old ≡ [])
        × (remaining_items tool state.entry words.new ≡ []))
        (λ step. step_items tool step words.new ≡ remaining_items tool state.entry words.old) }
{
    match state {
        ParserState::Done => None,
        ParserState::OnlyOperands => Some(ParserStep::OnlyOperands),
        ParserState::Cluster(letter, rest) => Some(letter_step(tool, letter, rest)),
        ParserState::Word => Some(word_step(tool, words.next()?)),
    }
}

// Applies the step, and returns the next item, if there is one.
fn apply_step<'a>(
    tool: Tool,
    words: &mut WordsIter<'a>,
    state: &mut ParserState<'a>,
    step: ParserStep<'a>,
) -> Option<Item<'a>>
    ensures { YieldsFirstBy item_value (λ items. items) (step_items tool step.entry words.old)
        result (remaining_items tool state.new words.new) }
{
    match step {
        ParserStep::Item(item, next) => {
            *state = next;
            Some(item)
        }
        ParserStep::Value(spelling) => match words.next() {
            Some(value) => {
                *state = ParserState::Word;
                Some(Item::Length(value))
            }
            None => {
                *state = ParserState::Done;
                Some(Item::Fault(WordFault::ValueMissing(spelling)))
            }
        },
        ParserStep::OnlyOperands => {
            *state = ParserState::OnlyOperands;
            Some(Item::Operand(words.next()?))
        }
    }
}

// The step of a whole word.
#[tactic(auto, using(crate::proofs::WordLemmas::no_text))]
fn word_step<'a>(tool: Tool, word: &'a [u8]) -> ParserStep<'a>
    ensures { (words : List ByteString) →
        step_items tool result words ≡ items_from tool (word.now ∷ words) a_word }
{
    if !is_option_word(word) {
        return ParserStep::Item(Item::Operand(word), ParserState::Word);
    }
    match str::from_utf8(word) {
        Ok(text) => option_step(tool, text),
        Err(_) => ParserStep::Item(Item::Fault(WordFault::NotText(word)), ParserState::Done),
    }
}

// Whether a word begins with a dash and isn't a dash alone.
fn is_option_word(word: &[u8]) -> bool
    ensures { result ≡ is_option_word word.now }
{
    matches!(word, [b'-', _, ..])
}

// The step of a word that begins with a dash, isn't a dash alone, and is UTF-8.
#[tactic(auto, using(crate::proofs::WordLemmas::utf8))]
fn option_step<'a>(tool: Tool, word: &'a str) -> ParserStep<'a>
    requires { IsTrue (is_option_word word.now) }
    ensures { (words : List ByteString) →
        step_items tool result words ≡ items_from tool (word.now ∷ words) a_word }
{
    if word == "--" {
        return ParserStep::OnlyOperands;
    }
    if let Some(text) = after_prefix("--", word) {
        return long_step(tool, text);
    }
    let (letter, rest) = letters_of(word);
    letter_step(tool, letter, rest)
}

// The step of a long option, without its two dashes.
fn long_step<'a>(tool: Tool, text: &'a str) -> ParserStep<'a>
    ensures { (words : List ByteString) → step_items tool result words
        ≡ long_option (name_or_fault tool (name_part text.now)) (value_part text.now)
        (items_from tool words) }
{
    let (name, value) = name_and_value(text);
    let flag = match Flag::from_name(tool, name) {
        Ok(flag) => flag,
        Err(fault) => return ParserStep::Item(Item::Fault(fault), ParserState::Done),
    };
    match (flag.takes_value(), value) {
        (true, Some(value)) => ParserStep::Item(Item::Length(value.as_bytes()), ParserState::Word),
        (true, None) => ParserStep::Value(Spelling::Long),
        (false, Some(_)) => ParserStep::Item(
            Item::Fault(WordFault::ValueNotAllowed(flag.name())),
            ParserState::Done,
        ),
        (false, None) => ParserStep::Item(Item::Flag(flag), ParserState::Word),
    }
}

// The step of a letter of a cluster, which the rest of the word follows.
fn letter_step<'a>(tool: Tool, letter: char, rest: &'a str) -> ParserStep<'a>
    ensures { (words : List ByteString) → step_items tool result words
        ≡ cluster tool (letter ∷ chars rest.now) (items_from tool words) }
{
    match Flag::from_letter(tool, letter) {
        None => ParserStep::Item(
            Item::Fault(WordFault::UnknownShort(letter)),
            ParserState::Done,
        ),
        Some(Flag::Length) => attached_value(rest),
        Some(flag) => ParserStep::Item(Item::Flag(flag), rest_of_cluster(rest)),
    }
}

// The step of the letter of an option that takes a value. The rest of the word is the value, if any is left.
#[tactic(auto, using(crate::proofs::WordLemmas::values))]
fn attached_value(rest: &str) -> ParserStep<'_>
    ensures { (tool : Tool) (words : List ByteString) →
        step_items tool result words ≡ attached_value tool (chars rest.now) words }
{
    if rest.is_empty() {
        ParserStep::Value(Spelling::Short)
    } else {
        ParserStep::Item(Item::Length(rest.as_bytes()), ParserState::Word)
    }
}

// What is read next of a cluster.
fn rest_of_cluster(letters: &str) -> ParserState<'_>
    ensures { (tool : Tool) (words : List ByteString) → remaining_items tool result words
        ≡ cluster tool (chars letters.now) (items_from tool words) }
{
    match first_letter(letters) {
        Some((letter, rest)) => ParserState::Cluster(letter, rest),
        None => ParserState::Word,
    }
}

// The first character after a word's dash, and the rest.
#[tactic(auto, using(crate::proofs::WordLemmas::nonempty_after_dash))]
fn letters_of(word: &str) -> (char, &str)
    requires { IsTrue (is_option_word word.now) }
    ensures { chars (drop 1 word.now) ≡ result.0 ∷ chars result.1.now }
{
    let Some(rest) = after_prefix("-", word) else {
        unreachable!()
    };
    match first_letter(rest) {
        Some(letters) => letters,
        None => unreachable!(),
    }
}

// The first character of a text, and the rest, or `None` if the text is empty.
#[tactic(auto, using(std::proofs::lemmas::Str::chars_past_char))]
fn first_letter(text: &str) -> Option<(char, &str)>
    ensures { MatchOption result ((text.now ≡ []) × (chars text.now ≡ []))
        (λ p. chars text.now ≡ p.0 ∷ chars p.1.now) }
{
    let mut rest = text.chars();
    let letter = rest.next()?;
    Some((letter, rest.as_str()))
}

// The word after a prefix, or `None` if the word doesn't begin with it.
#[tactic(auto, using(crate::proofs::WordLemmas::prefix_stripped))]
fn after_prefix<'a>(prefix: &str, word: &'a str) -> Option<&'a str>
    ensures { MatchOption result (starts_with ◌==◌ word.now prefix.now ≡ false)
        (λ rest. IsTrue (starts_with ◌==◌ word.now prefix.now)
        × (rest.now ≡ drop (length prefix.now) word.now)) }
{
    word.strip_prefix(prefix)
}

// A long option's name, and the value after its first `=`.
fn name_and_value(text: &str) -> (&str, Option<&str>)
    ensures name { result.0.now ≡ name_part text.now }
    ensures value { option_copied result.1 ≡ value_part text.now }
{
    match text.split_once('=') {
        Some((name, value)) => (name, Some(value)),
        None => (text, None),
    }
}

/// An iterator over the operands of a tool's words, seen as the list of those that remain.
#[derive(Debug, Drop)]
pub struct Operands<'a> {
    items: Items<'a>,
}

impl<'a> Model for Operands<'a> {
    ghost use Rattle.digest_kinds.specs.Bytes.{ByteString};
    ghost use Rattle.std.specs.Prelude.{List, filter_map};
    ghost use Rattle.sum_words.specs.parsing.Items.{operand_in};

    ghost Value = { List ByteString };

    ghost view = { λ o. filter_map operand_in o.items };
}

impl<'a> Operands<'a> {
    /// Creates an iterator over all operands of a tool's words.
    pub(crate) fn new<A: Allocator>(tool: Tool, words: &'a Words<A>) -> Operands<'a>
        ensures { result ≡ filter_map operand_in (items_from tool words.now a_word) }
    {
        Operands {
            items: Items::new(tool, words),
        }
    }
}

impl<'a> Iterator for Operands<'a> {
    type Item = &'a [u8];

    ghost next_gives = { YieldsFirstRef (λ operands. operands) };

    ghost remaining = { item_count (λ operands. operands) };

    fn next(&mut self) -> Option<&'a [u8]> {
        while let Some(item) = self.items.next() {
            if let Item::Operand(word) = item {
                return Some(word);
            }
        }
        None
    }
}
