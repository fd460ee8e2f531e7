//! The tools and their names.
ghost use Rattle.std.specs.Prelude.{◌≡◌, ◌↔◌, Some, Ok, IfSome};
ghost use Rattle.sum_words.specs.{Tool.name_of, Tool.algos_of, declared.tool.Tool.Tool};
ghost use Rattle.sum_words.specs.CommandLine.{tool_called};

use digest_kinds::{Algo, Algos};
use std::fmt;
use std::str::FromStr;
use thiserror::Error;

/// A tool: a GNU digest tool of the coreutils manual, or `anysum`, which checks manifests of mixed tagged lines.
#[derive(Clone, Copy, Debug, PartialEq, Eq, Hash)]
pub enum Tool {
    Md5sum,
    Sha1sum,
    Sha224sum,
    Sha256sum,
    Sha384sum,
    Sha512sum,
    B2sum,
    Anysum,
}

impl Tool {
    /// All tools.
    pub const ALL: [Tool; 8] = [
        Tool::Md5sum,
        Tool::Sha1sum,
        Tool::Sha224sum,
        Tool::Sha256sum,
        Tool::Sha384sum,
        Tool::Sha512sum,
        Tool::B2sum,
        Tool::Anysum,
    ];

    /// Returns the tool of this name, if there is one.
    #[tactic(auto, unfolding(crate::specs::CommandLine::tool_called))]
    pub fn from_word(word: &str) -> Option<Tool>
        ensures tool { (tool : Tool) → (result ≡ Some tool) ↔ (name_of tool ≡ word.now) }
    {
        Tool::from_bytes(word.as_bytes())
    }

    /// Returns the tool whose name these bytes are, if there is one.
    #[tactic(auto, unfolding(crate::specs::CommandLine::tool_called))]
    pub fn from_bytes(name: &[u8]) -> Option<Tool>
        ensures tool { result ≡ tool_called name.now }
        // So the tool's name is this one.
        ensures name { IfSome result (λ tool. name_of tool ≡ name.now) }
    {
        Tool::ALL
            .iter()
            .copied()
            .find(|tool| tool.name().as_bytes() == name)
    }

    // The tool's row in the table: its name, and the algorithms of its digests.
    fn row(self) -> (&'static str, Algos)
        ensures name { result.0.now ≡ name_of self }
        ensures algos { result.1 ≡ algos_of self }
    {
        match self {
            Tool::Md5sum => ("md5sum", Algos::One(Algo::Md5)),
            Tool::Sha1sum => ("sha1sum", Algos::One(Algo::Sha1)),
            Tool::Sha224sum => ("sha224sum", Algos::One(Algo::Sha224)),
            Tool::Sha256sum => ("sha256sum", Algos::One(Algo::Sha256)),
            Tool::Sha384sum => ("sha384sum", Algos::One(Algo::Sha384)),
            Tool::Sha512sum => ("sha512sum", Algos::One(Algo::Sha512)),
            Tool::B2sum => ("b2sum", Algos::One(Algo::Blake2b)),
            Tool::Anysum => ("anysum", Algos::Any),
        }
    }

    /// Returns the tool's name, as it is typed and as it begins each of its messages.
    pub fn name(self) -> &'static str
        ensures name { result.now ≡ name_of self }
    {
        self.row().0
    }

    /// Returns the algorithms of the tool's digests: all for `anysum`, one for each other tool.
    pub fn algos(self) -> Algos
        ensures algos { result ≡ algos_of self }
    {
        self.row().1
    }
}

/// No tool has this name.
#[derive(Clone, Copy, Debug, PartialEq, Eq, Error)]
#[error("unknown tool")]
pub struct UnknownTool;

impl FromStr for Tool {
    type Err = UnknownTool;

    ghost from_str_gives = { λ word r. (tool : Tool) → (r ≡ Ok tool) ↔ (name_of tool ≡ word) };

    /// Returns the tool of this name, as [`Tool::from_word`] does.
    fn from_str(word: &str) -> Result<Tool, UnknownTool> {
        Tool::from_word(word).ok_or(UnknownTool)
    }
}

impl fmt::Display for Tool {
    ghost output = { λ tool. Some (name_of tool) };

    /// Writes the tool's name, padded as a text is.
    fn fmt<W: fmt::Write>(&self, f: &mut fmt::Formatter<W>) -> fmt::Result {
        f.pad(self.name())
    }
}
