//! The rules by which a manifest's lines are judged, and what its reports show.
ghost use Rattle.std.specs.Prelude.{◌≡◌};
ghost use Rattle.sum_engine.specs.check.Rules.{rules_of};

use digest_kinds::Algos;
use std::marker::Model;
use sum_settings::{CheckSettings, Report};

/// The rules by which a manifest's lines are judged.
#[derive(Clone, Copy, Debug)]
pub(crate) struct CheckRules {
    /// The algorithms that they may name.
    pub algo: Algos,
    /// An option that changes verdicts.
    pub ignore_missing: bool,
    /// One that changes whether the manifest is good.
    pub strict: bool,
    /// Whether the manifest came from standard input.
    pub from_stdin: bool,
}

impl CheckRules {
    /// Creates the rules of these settings.
    pub(crate) fn new(settings: CheckSettings, from_stdin: bool) -> Self
        ensures { result ≡ rules_of settings from_stdin }
    {
        CheckRules {
            algo: settings.algo,
            ignore_missing: settings.ignore_missing,
            strict: settings.strict,
            from_stdin,
        }
    }
}

/// What the reports of a manifest show: the tool's name and the manifest's, and which lines.
#[derive(Debug, Drop)]
pub(crate) struct Labels<'a> {
    pub tool: &'a str,
    pub manifest: &'a [u8],
    pub report: Report,
}

impl<'a> Model for Labels<'a> {
    ghost use Rattle.sum_engine.specs.check.Rules.{LabelsValue};

    ghost Value = { LabelsValue };

    ghost view = { λ l.
        record { tool = l.tool.now; manifest = l.manifest.now; report = l.report } };
}
