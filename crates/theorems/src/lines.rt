//! Lines of checksums: how they are written, offered to an output, and read back.
ghost use Rattle.sum_lines.specs.declared.sinks.buffered.TheConstants.{CAPACITY};
ghost use Rattle.digest_kinds.specs.{Bytes.ByteString, Kind.KindValue, declared.algo.Algos.Algos};
ghost use Rattle.{digest_kinds.specs.Algo.has_len, hex.specs.Hex.IsBytes};
ghost use Rattle.digests.specs.Program.{stop_line, unknown_tool_line};
ghost use Rattle.std.specs.Prelude.{◌≡◌, ◌≢◌, ◌↔◌, ◌≤◌, ◌<◌, ◌⊎◌, ◌∷◌, ◌++◌, [], All, List, ℕ, Some};
ghost use Rattle.std.specs.Prelude.{IfOk, IsTrue, OnErr, OnOk, codes, decimal, drop, take, false, length};
ghost use Rattle.std.specs.Prelude.{slice_range, vec_len};
ghost use Rattle.std.specs.Str.{byte};
ghost use Rattle.sum_lines.specs.{Escape.escape, sinks.Output.pieces_of};
ghost use Rattle.sum_lines.specs.writing.PutLine.{digest_line};
ghost use Rattle.sum_lines.specs.sinks.Output.{OffersEach, OutputEvent, output_events};
ghost use Rattle.sum_lines.specs.declared.reading.read_line.Form.{Form, TheVariants.Undecided, TheVariants.Standard};
ghost use Rattle.sum_lines.specs.grammar.{Entries.EntryValue, Entries.IsEntry, Form.form_of, Form.IsForm};
ghost use Rattle.sum_lines.specs.grammar.{LineLaws.AllowsMode, ParsedLines.entry, ParsedLines.ignored};
ghost use Rattle.sum_lines.specs.grammar.ParsedLines.{parse_line};
ghost use Rattle.sum_settings.specs.declared.style.{Mode.Mode, Style.Style};
ghost use Rattle.sum_words.specs.messages.FaultLines.{fault_lines};
ghost use Rattle.sum_words.specs.parsing.WordFault.{word_fault_value};
ghost use Rattle.theorems.specs.Writes.{Writes};

use digest_kinds::{Algos, Digest, Kind};
use digests::{put_stop, put_unknown};
use std::alloc::Allocator;
use sum_engine::Stop;
use sum_lines::{
    Buffered, Form, Output, Reading, Sink, SinkFault, Style, Text, laws, needs_escape, put_all,
    put_escaped, put_line, put_number, read_line, unescape_in,
};
use sum_words::{Tool, WordFault, put_fault};

/// A write to a sink accepts the first bytes of the piece, at least one if the piece isn't empty; or it fails, and
/// accepts none.
pub fn some_written<S: Sink>(sink: &mut S, piece: &[u8]) -> Result<usize, SinkFault>
    ensures ok { IfOk result (λ n. (n ≤ length piece.now) × (0 < length piece.now → 0 < n)
        × ((S.state sink.new).output.written ≡ (S.state sink.old).output.written ++ take n piece.now)) }
    ensures err { OnErr result ((S.state sink.new).output.written ≡ (S.state sink.old).output.written) }
{
    sink.write(piece)
}

/// `put_all` writes the bytes, or a proper prefix of them. What was buffered is written before them.
pub fn bytes_written<S: Sink>(sink: &mut Buffered<S>, bytes: &[u8]) -> Result<(), SinkFault>
    ensures { Writes sink.old sink.new bytes.now result }
{
    put_all(sink, bytes)
}

/// A flush offers the sink all that is buffered, and again only what is left of it, and the sink has then written all
/// of it. If a call of the sink fails, a prefix was offered so. Whether it fails or not, nothing is buffered then, and
/// the sink is flushed.
pub fn buffer_flushed<S: Sink>(sink: &mut Buffered<S>) -> Result<(), SinkFault>
    ensures ok { OnOk result (OffersEach sink.old.sink.output.offered sink.new.sink.output.offered
        (output_events sink.old.buffered)) }
    ensures written { OnOk result (sink.new.sink.output.written
        ≡ sink.old.sink.output.written ++ sink.old.buffered) }
    ensures err { OnErr result ((front rest : List OutputEvent)
        × (output_events sink.old.buffered ≡ front ++ rest)
        × OffersEach sink.old.sink.output.offered sink.new.sink.output.offered front) }
    ensures flushed { (sink.new.buffered ≡ []) × IsTrue sink.new.sink.flushed }
{
    sink.flush()
}

/// `put_escaped` writes the escaped name, or a proper prefix of it.
pub fn escape_written<S: Sink>(sink: &mut Buffered<S>, name: &[u8]) -> Result<(), SinkFault>
    ensures { Writes sink.old sink.new (escape name.now) result }
{
    put_escaped(sink, name)
}

/// `put_number` writes the decimal digits, or a proper prefix of them.
pub fn number_written<S: Sink>(sink: &mut Buffered<S>, number: u64) -> Result<(), SinkFault>
    ensures { Writes sink.old sink.new (decimal number) result }
{
    put_number(sink, number)
}

/// `put_line` writes the line of a name and its digest, or a proper prefix of it.
pub fn line_written<S: Sink>(
    sink: &mut Buffered<S>,
    style: Style,
    kind: Kind,
    name: &[u8],
    digest: &Digest,
) -> Result<(), SinkFault>
    requires { length digest.now ≡ kind.len }
    ensures { Writes sink.old sink.new (digest_line style kind name.now digest.now) result }
{
    put_line(sink, style, kind, name, digest)
}

/// `put_fault` writes the two lines of a fault of the words, or a proper prefix of them.
pub fn fault_written<S: Sink>(
    sink: &mut Buffered<S>,
    tool: Tool,
    fault: &WordFault<'_>,
) -> Result<(), SinkFault>
    ensures { Writes sink.old sink.new (fault_lines tool (word_fault_value fault.now)) result }
{
    put_fault(sink, tool, fault)
}

/// `put_unknown` writes the line for an unknown tool, or a proper prefix of it.
pub fn unknown_written<S: Sink>(sink: &mut Buffered<S>) -> Result<(), SinkFault>
    ensures { Writes sink.old sink.new unknown_tool_line result }
{
    put_unknown(sink)
}

/// `put_stop` writes the line for a stop, or a proper prefix of it.
pub fn stop_written<S: Sink>(
    sink: &mut Buffered<S>,
    tool: Tool,
    stop: Stop,
) -> Result<(), SinkFault>
    ensures { Writes sink.old sink.new (stop_line (Some tool) stop) result }
{
    put_stop(sink, tool, stop)
}

/// An output offers a text piece by piece, and again only what is left of a piece; nothing else. If a call of the sink
/// fails, it has offered a prefix of this.
pub fn text_offered<S: Sink, T: Text>(output: &mut Output<S>, text: &T) -> Result<(), SinkFault>
    ensures ok { OnOk result
        (OffersEach output.old.offered output.new.offered (output_events (T.text text.now))) }
    ensures err { OnErr result ((front rest : List OutputEvent)
        × (output_events (T.text text.now) ≡ front ++ rest)
        × OffersEach output.old.offered output.new.offered front) }
{
    output.write(text)
}

/// A text of 1 to 8,192 bytes is offered in one piece, and after it only ends of it, which are shorter, if no call of
/// the sink fails.
pub fn short_text_offered<S: Sink, T: Text>(
    output: &mut Output<S>,
    text: &T,
) -> Result<(), SinkFault>
    ensures { 0 < length (T.text text.now) → length (T.text text.now) ≤ CAPACITY
        → OnOk result ((again : List ByteString)
        × (output.new.offered ≡ output.old.offered ++ T.text text.now ∷ again)
        × All (λ left. (front : ByteString) × (T.text text.now ≡ front ++ left) × (0 < length front)
        × (0 < length left)) again) }
{
    output.write(text)
}

/// A text of 1 to 8,192 bytes is one piece.
pub fn short_text_is_a_piece()
    ensures { (text : ByteString) → 0 < length text → length text ≤ CAPACITY
        → pieces_of text ≡ text ∷ [] }
{
    laws::one_piece();
}

/// `CAPACITY`, the size of the pieces of a longer text, is 8,192 bytes.
pub fn capacity_is_8192()
    ensures capacity { CAPACITY ≡ 8192 }
{}

/// Between its calls an output's sink has got what the output has, and nothing else, and is flushed.
pub fn output_holds_nothing<S: Sink>(output: &Output<S>) -> &S
    ensures written { (S.state result.now).output ≡ output.now }
    ensures flushed { IsTrue (S.state result.now).flushed }
{
    output.get_ref()
}

/// `needs_escape` returns whether the escaped name differs from the name.
pub fn escape_needed(name: &[u8]) -> bool
    ensures { IsTrue result ↔ (escape name.now ≢ name.now) }
{
    needs_escape(name)
}

/// `unescape_in` returns true and leaves a name if and only if the bytes were the name's escape. It changes nothing
/// before them, and the line doesn't get longer.
pub fn escape_read<A: Allocator>(line: &mut Vec<u8, A>, from: usize) -> bool
    requires { from ≤ vec_len line.old }
    ensures name { (n : ByteString) → (drop from line.old.items ≡ escape n)
        ↔ (IsTrue result × (line.new.items ≡ take from line.old.items ++ n)) }
    ensures before { take from line.new.items ≡ take from line.old.items }
    ensures at_most { vec_len line.new ≤ vec_len line.old }
{
    unescape_in(line, from)
}

/// `read_line` returns `Ignored` if and only if the line is empty or begins with `#`, and an entry if and only if the
/// line spells it in a list of the new form; otherwise the line is bad. The form is the earlier one, if that was
/// decided, and else that of a list of this line. The vector doesn't get longer.
pub fn line_read<A: Allocator>(algos: Algos, form: Form, line: &mut Vec<u8, A>) -> (Reading, Form)
    ensures decided { form ≢ Undecided → result.1 ≡ form }
    ensures undecided { form ≡ Undecided → result.1 ≡ form_of algos (line.old.items ∷ []) }
    ensures ignored { (result.0 ≡ Reading.Ignored) ↔ ((line.old.items ≡ [])
        ⊎ ((rest : ByteString) × (line.old.items ≡ byte "#" ∷ rest))) }
    ensures entry { (found : EntryValue) → IsEntry escape algos result.1 line.old.items found
        ↔ ((start stop : ℕ) × (result.0 ≡ Reading.Entry found.kind found.digest start stop)
        × (slice_range line.new.items start stop ≡ found.name)) }
    ensures at_most { vec_len line.new ≤ vec_len line.old }
{
    read_line(algos, form, line)
}

/// The functions that compute what a line says find an entry if and only if the line spells it, and ignore a line if
/// and only if it is empty or begins with `#`.
pub fn computed_by_grammar()
    ensures entry { (algos : Algos) (form : Form) (line : ByteString) (found : EntryValue)
        → (parse_line algos form line ≡ entry found) ↔ IsEntry escape algos form line found }
    ensures ignored { (algos : Algos) (form : Form) (line : ByteString)
        → (parse_line algos form line ≡ ignored)
        ↔ ((line ≡ []) ⊎ ((rest : ByteString) × (line ≡ byte "#" ∷ rest))) }
{
    laws::parse_is_grammar();
}

/// A list of lines has one form, which is the computed one.
pub fn only_form()
    ensures some { (algos : Algos) (lines : List ByteString) → (f : Form) × IsForm algos lines f }
    ensures only { (algos : Algos) (lines : List ByteString) (f g : Form) → IsForm algos lines f
        → IsForm algos lines g → f ≡ g }
    ensures computed { (algos : Algos) (lines : List ByteString) → IsForm algos lines (form_of algos lines) }
{
    laws::one_form();
}

/// For given algorithms, in a list of one form, a line spells at most one entry.
pub fn only_entry()
    ensures { (algos : Algos) (form : Form) (line : ByteString) (first second : EntryValue)
        → IsEntry escape algos form line first → IsEntry escape algos form line second
        → first ≡ second }
{
    laws::one_entry();
}

/// A line that was written, but not in zero style, is one line, and spells exactly the kind, the digest and the name
/// that it was written for. The premises: the name isn't empty and has no NUL, the digest is of its kind's length, its
/// algorithm is the list's, or its mode is tagged, and no earlier line makes the list `Reversed`.
pub fn written_line_is_read()
    ensures { (algos : Algos) (mode : Mode) (kind : KindValue) (name digest : ByteString)
        (before later : List ByteString) → 0 < length name → All (λ b. 0 < b) name → IsBytes digest
        → length digest ≡ kind.len → IsTrue (has_len kind.algo kind.len)
        → AllowsMode algos mode kind.algo
        → (form_of algos before ≡ Undecided) ⊎ (form_of algos before ≡ Standard) → (written : ByteString)
        × (digest_line (record { mode = mode; zero = false }) kind name digest ≡ written ++ codes "\n")
        × All (λ b. (b ≢ byte "\n") × (b ≢ byte "\r")) written × ((found : EntryValue)
        → IsEntry escape algos (form_of algos (before ++ written ∷ later)) written found
        ↔ (found ≡ record { kind = kind; digest = digest; name = name })) }
{
    laws::read_back();
}
