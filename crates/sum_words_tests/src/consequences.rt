//! What the contracts of words and of tools give a caller.
ghost use Rattle.std.specs.Option.{option_copied};
ghost use Rattle.std.specs.Prelude.{◌≡◌, ◌≢◌, ◌↔◌, ◌-◌, [], IsTrue, Ok, length};
ghost use Rattle.std.specs.Prelude.{slice_get};

use std::alloc::Allocator;
use sum_words::{Tool, UnknownTool, Words};

/// Returns the last word, if there is one.
pub fn last_word<A: Allocator>(words: &Words<A>) -> Option<&[u8]>
    ensures { option_copied result ≡ slice_get words.now (length words.now - 1) }
{
    words.get(words.len().checked_sub(1)?)
}

/// Returns whether there is a word.
pub fn has_words<A: Allocator>(words: &Words<A>) -> bool
    ensures { IsTrue result ↔ (words.now ≢ []) }
{
    !words.is_empty()
}

/// Returns the tool from its name.
pub fn of_its_name(tool: Tool) -> Result<Tool, UnknownTool>
    ensures { result ≡ Ok tool }
{
    tool.name().parse()
}
