//! What follows from a law of lines, and from the grammar alone.
ghost use Rattle.digest_kinds.specs.{Bytes.ByteString, Kind.KindValue};
ghost use Rattle.digest_kinds.specs.declared.algo.Algos.{Algos, TheVariants.Any};
ghost use Rattle.std.specs.{Prelude.◌≡◌, Prelude.Bool, Prelude.◌∷◌, Prelude.◌++◌, Prelude.codes, Prelude.false};
ghost use Rattle.std.specs.{Prelude.[], Prelude.OnErr, Prelude.OnOk, Str.byte};
ghost use Rattle.sum_lines.specs.declared.reading.read_line.Form.{Form, TheVariants.Undecided};
ghost use Rattle.sum_lines.specs.{Escape.escape, grammar.Entries.EntryValue, grammar.Entries.IsEntry};
ghost use Rattle.sum_lines.specs.grammar.{Form.IsForm, Form.form_of, LineLaws.FitsGrammar};
ghost use Rattle.sum_lines.specs.grammar.ParsedLines.{ParsedLine, ignored};
ghost use Rattle.sum_lines.specs.{grammar.Shapes.IsTagged};
ghost use Rattle.sum_lines.specs.writing.PutLine.{digest_line};
ghost use Rattle.sum_settings.specs.declared.style.Mode.TheVariants.{Tag};

use sum_lines::{Output, Sink, SinkFault, Text, laws};

/// A tagged line doesn't decide the form of a list, whichever algorithms the list may name.
pub fn tagged_is_undecided()
    ensures { (algos others : Algos) (line : ByteString) (e : Bool) (kind : KindValue)
        (digest raw : ByteString) → IsTagged others line e kind digest raw
        → IsForm algos (line ∷ []) Undecided }
{
    laws::one_entry();
}

/// By the grammar alone, a line that begins with `#` is ignored.
pub fn comment_is_ignored()
    ensures { (algos : Algos) (f : Form) (text : ByteString) (said : ParsedLine)
        → FitsGrammar algos f (byte "#" ∷ text) said → said ≡ ignored }
{}

/// The tagged line of what a line spells is one line, and spells it again, whichever algorithms may be named.
pub fn relabelled_line_is_read()
    ensures { (algos : Algos) (f : Form) (text : ByteString) (found : EntryValue)
        → IsEntry escape algos f text found → (prefix : ByteString)
        × (digest_line (record { mode = Tag; zero = false }) found.kind found.name found.digest ≡ prefix ++ codes "\n")
        × IsEntry escape Any (form_of Any (prefix ∷ [])) prefix found }
{
    laws::entry_is_writable();
    laws::read_back();
}

/// Writes a text to an output. The bytes that its sink wrote grew by the text, or by a prefix of it.
pub fn write_text<S: Sink, T: Text>(output: &mut Output<S>, text: &T) -> Result<(), SinkFault>
    ensures ok { OnOk result (output.new.written ≡ output.old.written ++ T.text text.now) }
    ensures err { OnErr result ((front rest : ByteString) × (T.text text.now ≡ front ++ rest)
        × (output.new.written ≡ output.old.written ++ front)) }
{
    laws::text_is_written();
    output.write(text)
}
