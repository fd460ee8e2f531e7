//! Laws of the line grammar, and one of the pieces of a text. Each is the contract of a function that does nothing, and
//! holds whatever the code does.
ghost use Rattle.sum_lines.specs.declared.sinks.buffered.TheConstants.{CAPACITY};
ghost use Rattle.digest_kinds.specs.Bytes.{ByteString};
ghost use Rattle.std.specs.Prelude.{◌≡◌, ◌<◌, ◌≤◌, ◌∷◌, ◌++◌, [], length};
ghost use Rattle.sum_lines.specs.grammar.LineLaws.{EntryIsWritable, HasOneShape, HasOneEntry, HasOneForm};
ghost use Rattle.sum_lines.specs.grammar.LineLaws.{ParsesByGrammar, IsReadBack};
ghost use Rattle.sum_lines.specs.sinks.Output.{Gets, OutputState, output_events, pieces_of};
ghost use Rattle.sum_lines.specs.sinks.GivesAll.{GetsPrefix};

/// For given algorithms and a given form, a line spells at most one entry. No line is both plain and tagged, even with
/// different algorithms.
pub fn one_entry()
    ensures entry { HasOneEntry }
    ensures shape { HasOneShape }
{}

/// A list of lines has one form: the one that is computed.
pub fn one_form()
    ensures form { HasOneForm }
{}

/// What is computed for a line is what the line grammar says of it: it is ignored, or an entry, each if and only if the
/// grammar says so. So it is bad if and only if it is neither.
pub fn parse_is_grammar()
    ensures grammar { ParsesByGrammar }
{}

/// A line that is written is read back: it spells the kind, the digest and the name that it was written for. It is read
/// by its own algorithm or, if it is tagged, by any. The premises: the name isn't empty and has no NUL, the style isn't
/// zero, and no earlier line makes the manifest `Reversed`.
pub fn read_back()
    ensures line { IsReadBack }
{}

/// A text of 1 to [`CAPACITY`](crate::CAPACITY) bytes is one piece. So it is offered whole.
pub fn one_piece()
    ensures piece { (text : ByteString) → 0 < length text → length text ≤ CAPACITY → pieces_of text ≡ text ∷ [] }
{}

/// What a line spells can be written again: the name isn't empty and has no NUL, and the digest is of its kind's
/// length. So the line that is written of it spells it (`read_back`).
pub fn entry_is_writable()
    ensures writable { EntryIsWritable }
{}

/// What an output wrote of a text's events are the bytes of the text; what it wrote of a prefix of them is a prefix of
/// the text.
pub fn text_is_written()
    ensures whole { (before after : OutputState) (text : ByteString)
        → Gets before after (output_events text) → after.written ≡ before.written ++ text }
    ensures prefix { (before after : OutputState) (text : ByteString)
        → GetsPrefix before after (output_events text) → (front rest : ByteString)
        × (text ≡ front ++ rest) × (after.written ≡ before.written ++ front) }
{}
