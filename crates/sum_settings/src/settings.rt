//! What a call is asked to do.
ghost use Rattle.std.specs.Prelude.{◌≡◌, false};
ghost use Rattle.sum_settings.specs.declared.settings.Report.TheVariants.{All};

use crate::style::Style;
use digest_kinds::{Algos, Kind};

/// How names are hashed and their lines are written.
#[derive(Clone, Copy, Debug, PartialEq, Eq)]
pub struct Settings {
    /// The digest's algorithm and length.
    pub kind: Kind,
    /// The form of a line.
    pub style: Style,
}

/// What checking reports, by the options `--quiet`, `--warn` and `--status` of the coreutils manual.
#[derive(Clone, Copy, Debug, PartialEq, Eq)]
pub enum Report {
    /// Each file, and the warnings at a manifest's end.
    All,
    /// As `All`, without the files that match.
    Quiet,
    /// As `All`, plus each line that is improperly formatted.
    Warn,
    /// No line for a file, and no warning. Unreadable files and manifests without an entry are still reported.
    Status,
}

/// How manifests are checked.
#[derive(Clone, Copy, Debug, PartialEq, Eq)]
pub struct CheckSettings {
    /// The algorithms that lines may name.
    pub algo: Algos,
    /// What is reported.
    pub report: Report,
    /// Whether an improperly formatted line makes a manifest bad.
    pub strict: bool,
    /// Whether a listed file that doesn't exist is skipped.
    pub ignore_missing: bool,
}

impl CheckSettings {
    /// Creates the settings of the plain check of lines of these algorithms: everything is reported, and no option is
    /// set.
    pub fn new(algo: Algos) -> Self
        ensures settings { result
            ≡ record { algo = algo; report = All; strict = false; ignore_missing = false } }
    {
        CheckSettings {
            algo,
            report: Report::All,
            strict: false,
            ignore_missing: false,
        }
    }
}
