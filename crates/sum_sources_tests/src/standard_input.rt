//! Callers of standard input beside a source of files.
ghost use Rattle.std.specs.Prelude.{◌≡◌, ◌++◌, ◌∷◌, [], IsTrue, MatchBool, OnOk};
ghost use Rattle.sum_sources.specs.inputs.Stdin.{given_input, is_untaken, stdin_after_put_back, stdin_after_taking};
ghost use Rattle.sum_sources.specs.sources.{Source.names_of, WithStdin.is_dash};
ghost use Rattle.sum_sources.specs.sources.WithStdinView.{source_in, stdin_in};

use sum_sources::{Input, OpenFault, Source, Stdin, WithStdin};

/// Opens the file of a name, and closes it unread. If the name is `-`, the source of files is unchanged; otherwise
/// standard input is.
pub fn visit<I: Input + Drop, S: Source>(
    inputs: &mut WithStdin<I, S>,
    name: &[u8],
) -> Result<(), OpenFault>
    ensures { MatchBool (is_dash name.now)
        (let old = stdin_in inputs.old in
        (stdin_in inputs.new ≡ stdin_after_put_back (stdin_after_taking old) (given_input old))
        × (S.state (source_in inputs.new) ≡ S.state (source_in inputs.old)))
        ((stdin_in inputs.new ≡ stdin_in inputs.old)
        × OnOk result (names_of (S.state (source_in inputs.new)).openings
        ≡ names_of (S.state (source_in inputs.old)).openings ++ name.now ∷ [])) }
{
    let file = inputs.open_file(name)?;
    inputs.close_file(file);
    Ok(())
}

/// Puts standard input beside a source of files, takes it once, and puts it back unread.
pub fn visit_stdin<I: Input + Drop, S: Source>(stdin: Stdin<I>, source: S) -> WithStdin<I, S>
    requires { IsTrue (is_untaken stdin) }
    ensures stdin { stdin_in result ≡ stdin_after_put_back (stdin_after_taking stdin) (given_input stdin) }
    ensures source { S.state (source_in result) ≡ S.state source }
{
    let mut inputs = WithStdin::new(stdin, source);
    let _ = visit(&mut inputs, b"-");
    inputs
}
