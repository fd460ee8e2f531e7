//! The laws of standard input and a source that are in memory, as one source; and the law of what was read of an input
//! through its reader.
ghost use Rattle.std.specs.Prelude.{◌≡◌, ◌==◌, Some, List, Result, codes};
ghost use Rattle.sum_sources.specs.LineReader.{AdvancesLines, LineReaderValue, reads_of};
ghost use Rattle.sum_sources.specs.{LineReader.LineStop, LineReader.Next, inputs.Input.empty_reads};
ghost use Rattle.sum_sources.specs.inputs.{Input.Content, Stdin.is_untaken};
ghost use Rattle.sum_sources.specs.sources.Source.{Answers, ToldAnswer, TellsAll, ToldAnswers, names_of, times};
ghost use Rattle.sum_sources.specs.sources.WithStdin.{answers_with, answer_of_both, pairs_with_stdin};
ghost use Rattle.sum_sources.specs.sources.WithStdinView.{both_state, stdin_in};

use crate::{Input, Source, WithStdin};

/// If standard input and the answers of a source are in memory, so are those of both as one source: the first opening
/// of `-` gives standard input, each later one an empty content, and every other name what it gives in the source.
pub fn with_stdin_tells()
    ensures answers { (stdin : Content) (tells : ToldAnswers) (told : List ToldAnswer) (answer : Answers)
        → TellsAll tells told answer
        → TellsAll (answer_of_both tells) (pairs_with_stdin (Some stdin) told)
        (answers_with stdin answer) }
{}

/// Standard input was taken if and only if `-` was opened.
pub fn stdin_is_taken<I: Input, S: Source>(inputs: &WithStdin<I, S>)
    ensures taken { is_untaken (stdin_in inputs.now)
        ≡ (times (codes "-") (names_of (both_state inputs.now).openings) == 0) }
{}

/// If all that was read of an input was read through its reader, what clauses call `reads_of` is what the input's own
/// `reads` say, which a caller has after `into_inner`. It is so of a new reader whose input is unread, and stays so.
pub fn all_reads<I: Input>()
    ensures unread { (reader : LineReaderValue I) → (I.state reader.input).reads ≡ empty_reads
        → reads_of I.state reader ≡ (I.state reader.input).reads }
    ensures call { (before after : LineReaderValue I) (result : Result Next LineStop)
        → AdvancesLines I.state before after result
        → reads_of I.state before ≡ (I.state before.input).reads
        → reads_of I.state after ≡ (I.state after.input).reads }
{}
