//! One line of a manifest.

ghost use Rattle.std.specs.{List.list_all, Option.option_and_then, Option.option_map_or};
ghost use Rattle.std.specs.Prelude.{◌≡◌, ◌≤◌, None, Some, drop, if◌then◌else◌, nat_lt, not, take, vec_len};
ghost use Rattle.sum_lines.specs.grammar.{Entries.is_ignored, Form.begins_standard, Form.form_then, Form.line_form};
ghost use Rattle.sum_lines.specs.grammar.LineLaws.{FitsGrammar};
ghost use Rattle.sum_lines.specs.grammar.ParsedLines.{bad, entry, entry_of, entry_of_parts, parse_line, unescape};
ghost use Rattle.sum_lines.specs.grammar.ParsedLines.{parts_with_raw_name, parsed_line_of, IsWithin};
ghost use Rattle.sum_lines.specs.private.Beginnings.{IsReadAs, IsFront, line_parts};

use crate::escape::unescape_in;
use crate::reading::beginnings::{Beginning, find_beginning};
use crate::reading::line_parts::{Front, LineParts};
use crate::reading::plain::plain;
use crate::reading::tagged::tagged;
use digest_kinds::{Algos, Digest, Kind};
use memchr::memchr;
use std::alloc::Allocator;

/// Where names begin in the plain lines of a manifest. The first plain line decides it.
#[derive(Clone, Copy, Debug, PartialEq, Eq)]
pub enum Form {
    /// There is no plain line so far.
    Undecided,
    /// After one blank and a space or a star, as the tools write lines.
    Standard,
    /// After one blank.
    Reversed,
}

/// What a line of a manifest says.
#[derive(Debug, Drop)]
pub enum Reading {
    /// Nothing: the line is empty, or begins with `#`.
    Ignored,
    /// Nothing: the line is improperly formatted.
    Bad,
    /// The digest of a file, with its kind. The file's name is the range `start..stop` of the line's vector.
    Entry {
        kind: Kind,
        digest: Digest,
        start: usize,
        stop: usize,
    },
}

/// Reads one line of a manifest. `line` has no line end, and `form` is what the earlier lines decided. Returns what the
/// line says, and the form with this line. The name of an entry is unescaped in place: the vector has it at the range
/// in the result. An ignored line is left as it is. What a bad one leaves in the vector is unspecified. The vector
/// never gets longer.
///
/// A line is ignored if it is empty or begins with `#`. Any other line may begin with blanks (spaces and tabs), and
/// then with one backslash. After a backslash the name is escaped (`\\`, `\n`, `\r`). The rest of the line is one of
/// these:
///
/// - Tagged, as in `BLAKE2b-256 (NAME) = DIGITS`. The tag is that of one of `algos`. Only after BLAKE2b's may `-` and
///   the digest's bits follow; a full digest needs no bits. A space may precede the parenthesis. The name ends at the
///   last parenthesis. Blanks may stand before and after `=`.
/// - Plain, as in `DIGITS  NAME`, if `algos` is one algorithm. One blank follows the digits, and then a tail that isn't
///   empty. The first plain line decides the form of all. If its tail begins with a space or `*` and more follows, the
///   form is `Standard`: each name follows such a byte. Otherwise the form is `Reversed`: the tail is the name.
///
/// The digits are hexadecimal, in either case. Their number is the one that the tag implies, or one that the algorithm
/// allows. A name has no NUL and isn't empty. Any other line is bad.
#[tactic(auto, using(crate::proofs::EntryLemmas::ignored_undecided))]
pub fn read_line<A: Allocator>(algos: Algos, form: Form, line: &mut Vec<u8, A>) -> (Reading, Form)
    // A form that is decided stays; otherwise a plain line decides it, even if its name makes it bad.
    ensures form { result.1 ≡ form_then form (line_form algos line.old.items) }
    // What the line says, as it is computed. An entry's name is a range of the vector.
    ensures parsed { parsed_line_of line.new.items result.0
        ≡ parse_line algos result.1 line.old.items }
    // What the line says by the grammar: ignored, an entry, or bad, each if and only if the grammar says that.
    ensures grammar { FitsGrammar algos result.1 line.old.items
        (parsed_line_of line.new.items result.0) }
    // The range of an entry's name is in the vector, and its digest is as long as the kind's.
    ensures within { IsWithin line.new.items result.0 }
    ensures ignored { result.0 ≡ Reading.Ignored → line.new ≡ line.old }
    ensures len { vec_len line.new ≤ vec_len line.old }
{
    if is_ignored(line) {
        return (Reading::Ignored, form);
    }
    let front = Front::of(line);
    match find_beginning(algos, line, front) {
        Some(beginning) => read_begun(algos, form, line, front, beginning),
        None => (Reading::Bad, form),
    }
}

// Reads a line that isn't ignored and has this beginning; most bad lines have none. This is a separate call, since it
// clears stack space for an entry.
#[inline(never)]
#[tactic(auto, unfolding(crate::specs::grammar::ParsedLines::entry_of))]
fn read_begun<A: Allocator>(
    algos: Algos,
    form: Form,
    line: &mut Vec<u8, A>,
    front: Front,
    beginning: Beginning,
) -> (Reading, Form)
    requires front { IsFront line.old.items front }
    requires read_as { IsReadAs algos line.old.items beginning }

    // What the line says, and the form with this line.
    ensures form { result.1 ≡ form_then form (line_form algos line.old.items) }
    ensures parsed { parsed_line_of line.new.items result.0
        ≡ option_map_or entry (entry_of algos result.1 line.old.items) bad }

    // What the vector has then.
    ensures within { IsWithin line.new.items result.0 }
    ensures len { vec_len line.new ≤ vec_len line.old }
{
    match beginning {
        Beginning::Tag(algo) => match tagged(algo, line, front) {
            Some(found) => (read_name(line, found), form),
            None => (Reading::Bad, form),
        },
        Beginning::Digits(algo, at) => match plain(algo, line, front, at) {
            Some(found) => read_tail(form, line, found),
            None => (Reading::Bad, form),
        },
    }
}

/// Returns whether a line of a manifest is ignored: it is empty or begins with `#`.
pub fn is_ignored(line: &[u8]) -> bool
    ensures value { result ≡ is_ignored line.now }
{
    match line {
        [] => true,
        [first, ..] => *first == b'#',
    }
}

// Reads a plain line's tail. The first plain line of a manifest decides the form, even if its name makes it bad.
#[tactic(auto, using(crate::proofs::EscapeLemmas::raw_standard))]
fn read_tail<A: Allocator>(
    form: Form,
    line: &mut Vec<u8, A>,
    mut found: LineParts,
) -> (Reading, Form)
    requires { found.stop ≤ vec_len line.old }

    // What the line says, and the form with this line.
    ensures form { result.1 ≡ form_then form
        (if begins_standard (line_parts line.old.items found).text then Form.Standard
        else Form.Reversed) }
    ensures parsed { parsed_line_of line.new.items result.0 ≡ option_map_or entry
        (option_and_then entry_of_parts
        (parts_with_raw_name result.1 (line_parts line.old.items found))) bad }

    // What the vector has then.
    ensures within { IsWithin line.new.items result.0 }
    ensures len { vec_len line.new ≤ vec_len line.old }
{
    let standard = begins_standard(&line[found.start..found.stop]);
    let form = form_after(form, standard);
    match form {
        Form::Standard if standard => {
            found.start += 1;
            (read_name(line, found), form)
        }
        Form::Standard => (Reading::Bad, form),
        _ => (read_name(line, found), form),
    }
}

// The form after a plain line, by whether its tail is that of a line in the form Standard.
fn form_after(form: Form, standard: bool) -> Form
    ensures { result ≡ form_then form (if standard then Form.Standard else Form.Reversed) }
{
    match form {
        Form::Undecided if standard => Form::Standard,
        Form::Undecided => Form::Reversed,
        decided => decided,
    }
}

// Whether the tail begins with a space or a star and more follows.
fn begins_standard(tail: &[u8]) -> bool
    ensures { result ≡ begins_standard tail.now }
{
    matches!(tail, [b' ' | b'*', _, ..])
}

// The entry of the parts, if their text spells a name without a NUL. After a backslash the text is the escape of the
// name; without one it is the name.
#[tactic(auto, using(crate::proofs::EscapeLemmas::part_of, std::proofs::lemmas::List::take_rest))]
fn read_name<A: Allocator>(line: &mut Vec<u8, A>, found: LineParts) -> Reading
    requires { found.stop ≤ vec_len line.old }

    // What the line says.
    ensures parsed { parsed_line_of line.new.items result
        ≡ option_map_or entry (entry_of_parts (line_parts line.old.items found)) bad }

    // What the vector has then.
    ensures within { IsWithin line.new.items result }
    ensures len { vec_len line.new ≤ vec_len line.old }
{
    line.truncate(found.stop);
    if unspell(line, found.escaped, found.start) && !has_nul(&line[found.start..]) {
        Reading::Entry {
            kind: found.kind,
            digest: found.digest,
            start: found.start,
            stop: line.len(),
        }
    } else {
        Reading::Bad
    }
}

// Replaces the bytes from `start` on by the name that they spell. Returns false if a backslash came first and they are
// no escape.
#[tactic(auto, using(crate::proofs::EscapeLemmas::replaced_by_name))]
fn unspell<A: Allocator>(line: &mut Vec<u8, A>, escaped: bool, start: usize) -> bool
    requires { start ≤ vec_len line.old }

    // The name that the bytes spell, and what stays.
    ensures name { (if result then Some (drop start line.new.items) else None)
        ≡ (if escaped then unescape (drop start line.old.items)
        else Some (drop start line.old.items)) }
    ensures before { take start line.new.items ≡ take start line.old.items }
    ensures len { vec_len line.new ≤ vec_len line.old }
{
    !escaped || unescape_in(line, start)
}

// Whether a byte is NUL.
#[tactic(auto, using(crate::proofs::EscapeLemmas::no_nul))]
fn has_nul(bytes: &[u8]) -> bool
    ensures { not result ≡ list_all (nat_lt 0) bytes.now }
{
    memchr(0, bytes).is_some()
}
