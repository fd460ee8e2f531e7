//! The options of the tools, by name and by letter (coreutils manual, "md5sum invocation" and "b2sum invocation").
ghost use Rattle.std.specs.List.{filter, starts_with};
ghost use Rattle.std.specs.Prelude.{◌≡◌, ◌==◌, ◌&&◌, [], ◌∷◌, find, option_to_list};
ghost use Rattle.std.specs.Str.{bytes_eq};
ghost use Rattle.sum_words.specs.parsing.Options.{row_of, full_name, all_flags, flags_of, has_option, takes_value};
ghost use Rattle.sum_words.specs.parsing.Options.{option_of_letter, only_or_fault, name_or_fault};
ghost use Rattle.sum_words.specs.parsing.WordFault.{result_value};

use crate::parsing::word_fault::WordFault;
use crate::tool::Tool;

/// An option. Only `Length` takes a value, and only b2sum has it.
#[derive(Clone, Copy, Debug, PartialEq, Eq)]
pub enum Flag {
    Binary,
    Check,
    Length,
    Tag,
    Text,
    Zero,
    IgnoreMissing,
    Quiet,
    Status,
    Strict,
    Warn,
    Help,
    Version,
}

/// How an option is written: by its full name or a prefix of it, or by its letter.
#[derive(Clone, Copy, Debug, PartialEq, Eq)]
pub enum Spelling {
    Long,
    Short,
}

// All options, in the order of help.
#[rattlefmt::skip]
static FLAGS: [Flag; 13] = [
    Flag::Binary, Flag::Check, Flag::Length, Flag::Tag, Flag::Text, Flag::Zero, Flag::IgnoreMissing, Flag::Quiet,
    Flag::Status, Flag::Strict, Flag::Warn, Flag::Help, Flag::Version,
];

/// All options, in the order of help.
pub(crate) fn all_flags() -> &'static [Flag]
    ensures { result.now ≡ all_flags }
{
    &FLAGS
}

/// Whether a tool has an option.
pub(crate) fn has_option(tool: Tool, flag: Flag) -> bool
    ensures { result ≡ has_option tool flag }
{
    !flag.takes_value() || tool == Tool::B2sum
}

impl Flag {
    /// The option's row in the table: the letter, if there is one, the full name, and the text in the help.
    #[rattlefmt::skip]
    pub(crate) fn row(self) -> (Option<u8>, &'static str, &'static str)
        ensures { (option_to_list result.0, result.1.now, result.2.now) ≡ row_of self }
    {
        match self {
            Flag::Binary => (Some(b'b'), "binary", "mark each line as binary"),
            Flag::Check => (Some(b'c'), "check", "read checksums from the FILEs and check them"),
            Flag::Length => (Some(b'l'), "length", "digest length in bits, a multiple of 8, at most 512"),
            Flag::Tag => (None, "tag", "write lines of the tagged form"),
            Flag::Text => (Some(b't'), "text", "mark each line as text (default)"),
            Flag::Zero => (Some(b'z'), "zero", "end each line with NUL and escape no name"),
            Flag::IgnoreMissing => (None, "ignore-missing", "with -c: neither fail nor report for missing files"),
            Flag::Quiet => (None, "quiet", "with -c: print no OK lines"),
            Flag::Status => (None, "status", "with -c: print no report"),
            Flag::Strict => (None, "strict", "with -c: fail for improperly formatted lines"),
            Flag::Warn => (Some(b'w'), "warn", "with -c: name each improperly formatted line"),
            Flag::Help => (None, "help", "print this text"),
            Flag::Version => (None, "version", "print the version"),
        }
    }

    /// Returns the full name, without the two dashes.
    pub(crate) fn name(self) -> &'static str
        ensures { result.now ≡ full_name self }
    {
        self.row().1
    }

    /// Returns whether the option takes a value.
    pub(crate) fn takes_value(self) -> bool
        ensures { result ≡ takes_value self }
    {
        matches!(self, Flag::Length)
    }

    /// Returns the tool's option that a long name means: the one with this full name, or otherwise the only one whose
    /// full name begins with it. Fails with `UnknownLong` if no full name does, and with `AmbiguousLong` if several do.
    #[tactic(auto, unfolding(crate::specs::parsing::Options::name_or_fault))]
    pub(crate) fn from_name(tool: Tool, name: &str) -> Result<Flag, WordFault<'_>>
        ensures { result_value result ≡ name_or_fault tool name.now }
    {
        match first_named(tool, name) {
            Some(flag) => Ok(flag),
            None => only_begun(tool, all_flags(), name),
        }
    }

    /// Returns the tool's option of this letter.
    #[tactic(auto, unfolding(crate::specs::parsing::Options::option_of_letter))]
    pub(crate) fn from_letter(tool: Tool, letter: char) -> Option<Flag>
        ensures { result ≡ option_of_letter tool letter }
    {
        FLAGS
            .iter()
            .copied()
            .filter(|flag| has_option(tool, *flag))
            .find(|flag| has_letter(*flag, letter))
    }
}

// Whether this is the option's letter.
fn has_letter(flag: Flag, letter: char) -> bool
    ensures { result ≡ bytes_eq (row_of flag).0 (letter ∷ []) }
{
    match flag.row().0 {
        Some(own) => char::from(own) == letter,
        None => false,
    }
}

// The tool's option of this full name.
fn first_named(tool: Tool, name: &str) -> Option<Flag>
    ensures { result ≡ find (λ flag. bytes_eq name.now (full_name flag)) (flags_of tool) }
{
    FLAGS
        .iter()
        .copied()
        .filter(|flag| has_option(tool, *flag))
        .find(|flag| name == flag.name())
}

// Whether the tool has the option, and its full name begins with this text.
#[tactic(auto, using(std::proofs::lemmas::Str::Pattern::starts_text))]
fn begins(tool: Tool, flag: Flag, name: &str) -> bool
    ensures { result ≡ (has_option tool flag && starts_with ◌==◌ (full_name flag) name.now) }
{
    has_option(tool, flag) && flag.name().starts_with(name)
}

// The tool's only option among these whose full name begins with this text.
fn only_begun<'a>(tool: Tool, flags: &[Flag], name: &'a str) -> Result<Flag, WordFault<'a>>
    ensures { result_value result ≡ only_or_fault name.now
        (filter (λ flag. has_option tool flag && starts_with ◌==◌ (full_name flag) name.now)
        flags.now) }
{
    let mut found = None;
    for flag in flags {
        if begins(tool, *flag, name) {
            if found.is_some() {
                return Err(WordFault::AmbiguousLong(name));
            }
            found = Some(*flag);
        }
    }
    found.ok_or(WordFault::UnknownLong(name))
}
