//! What may be wrong with the words.

use crate::parsing::options::Spelling;

/// A fault in the words, with what its text shows. The first five variants and the last concern a single word: the
/// earliest in the command line counts. The others are looked for after them, in the order of the variants.
#[derive(Clone, Copy, Debug, PartialEq, Eq)]
pub enum WordFault<'a> {
    /// An unknown long option: no option's name begins with this name, which is shown as it was typed.
    UnknownLong(&'a str),
    /// An ambiguous long option: several options' names begin with this name, which is shown as it was typed.
    AmbiguousLong(&'a str),
    /// The option of this full name takes no value, but one follows it after `=`.
    ValueNotAllowed(&'static str),
    /// No word follows `--length` or `-l`, which takes a value.
    ValueMissing(Spelling),
    /// This character appears among the letters of options, as `x` does in `-bx`, but isn't an option's letter.
    UnknownShort(char),
    /// A length that isn't one or more digits, or is over 512.
    LengthInvalid(&'a [u8]),
    /// A length that isn't a multiple of 8.
    LengthNotBytes(&'a [u8]),
    /// `--tag`, if `--text` is the last of `--binary`, `--tag` and `--text`.
    TagWithText,
    /// `--zero` with `--check`.
    ZeroWithCheck,
    /// `--tag` with `--check`.
    TagWithCheck,
    /// `--binary` or `--text` with `--check`.
    ModeWithCheck,
    /// `--ignore-missing` without `--check`.
    IgnoreWithoutCheck,
    /// `--status` without `--check`, if it is the last of `--status`, `--warn` and `--quiet`.
    StatusWithoutCheck,
    /// `--warn` without `--check`, if it is the last of the three.
    WarnWithoutCheck,
    /// `--quiet` without `--check`, if it is the last of the three.
    QuietWithoutCheck,
    /// `--strict` without `--check`.
    StrictWithoutCheck,
    /// `anysum` without `--check`.
    CheckNeeded,
    /// This word isn't UTF-8. It begins with a dash and isn't a dash alone, so it isn't an operand.
    NotText(&'a [u8]),
}
