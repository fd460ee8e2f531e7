//! The laws of a run and of the program over files in memory, and of what the tools wrote. Each is the contract of a
//! function that does nothing.
ghost use Rattle.digests.specs.Laws.{IsAccepted, GenerationRun};
ghost use Rattle.digests.specs.Laws.{MeansInMemory, MeansProgramInMemory};
ghost use Rattle.std.specs.Prelude.{List, [], ◌∷◌};

use sum_engine::Streams;
use sum_engine::laws::told_agree;
use sum_lines::Sink;
use sum_sources::Source;
use sum_words::Arguments;
use sum_words::laws::some_list_agrees;

/// The headline for files in memory, of any types. Suppose that `run` left these streams, and that the source tells all
/// answers. Then the outputs got exactly the bytes, and `run` returned exactly the status, that the words mean by these
/// answers; or it stopped, and a prefix of the run happened.
pub fn told_performs<S: Source, O: Sink, E: Sink>(streams: &Streams<S, O, E>)
    ensures meaning { MeansInMemory S.tells streams.now }
{
    told_agree(&streams.inputs);
}

/// The same for the program and arguments in memory. Suppose that `command` left these arguments and streams. Then the
/// tool and the words are those of the list in memory.
pub fn told_program_performs<G: Arguments, S: Source, O: Sink, E: Sink>(
    arguments: &G,
    streams: &Streams<S, O, E>,
)
    ensures meaning { MeansProgramInMemory S.tells (G.state arguments.now) streams.now }
{
    some_list_agrees(arguments);
    told_agree(&streams.inputs);
}

/// A tool accepts what it wrote. Suppose that `md5sum a b` wrote the manifest `SUMS`. Then `md5sum --check -- SUMS`
/// ends with status 0, and writes `a: OK` and `b: OK` and nothing else. Other settings of checking may precede `--`:
/// with `--quiet` or `--status` nothing is written.
///
/// The premises: the manifest was written for at least one name and without `-z`. No name is empty, is `-` or contains
/// a NUL. Each file could be read to its end, has fewer than 2^61 bytes and remains unchanged. The manifest has fewer
/// than 2^61 bytes, too. `anysum` accepts it as the tool does, if its lines are tagged.
pub fn written_is_good()
    ensures accepted { (g : GenerationRun) → IsAccepted (g ∷ []) }
{}

/// Several such manifests of one tool can be joined into one of fewer than 2^61 bytes, and the tool accepts it, too.
/// Tagged manifests of any tools can be joined for `anysum`.
pub fn joined_is_good()
    ensures accepted { (gs : List GenerationRun) → IsAccepted gs }
{}
