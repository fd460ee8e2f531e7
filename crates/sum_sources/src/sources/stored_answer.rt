//! A name and its answer, as a source in memory stores them.
ghost use Rattle.std.specs.Prelude.{◌≡◌, map};
ghost use Rattle.sum_sources.specs.sources.{Source.first_answer, StoredAnswer.answer_view, StoredAnswer.pair_view};

use crate::Fault;
use crate::sources::told_source::Answer;
use std::alloc::Allocator;

#[derive(Debug, Drop)]
pub(crate) struct StoredAnswer<'a, A: Allocator> {
    pub(crate) name: Vec<u8, A>,
    pub(crate) answer: Answer<'a>,
    // How often its name was opened before it was added.
    pub(crate) from: usize,
}

// The answer of the first pair with the name that was added by the time the name had been opened this many times.
pub(crate) fn answer_to<'a, A: Allocator>(
    pairs: &[StoredAnswer<'a, A>],
    name: &[u8],
    before: usize,
) -> Answer<'a>
    ensures { answer_view result ≡ first_answer (map pair_view pairs.now) name.now before }
{
    for pair in pairs {
        if pair.name.as_slice() == name && pair.from <= before {
            return pair.answer;
        }
    }
    Answer::Fault(Fault::NotFound)
}
