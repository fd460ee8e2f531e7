//! How many lines of a manifest have each verdict, and whether a manifest is good.
ghost use Rattle.digest_kinds.specs.Bytes.{LIMIT};
ghost use Rattle.std.specs.Prelude.{◌≡◌, ◌≤◌};
ghost use Rattle.sum_engine.specs.check.Counts.{counts_and_line, entry_count, is_manifest_good, total};
ghost use Rattle.sum_sources.specs.declared.fault.Ending.TheVariants.{Whole};

use crate::check::judge::Verdict;
use crate::check::rules::CheckRules;

/// How many lines of a manifest have each verdict but `Ignored`.
#[derive(Clone, Copy, Debug, PartialEq, Eq)]
pub(crate) struct Counts {
    pub right: u64,
    pub wrong: u64,
    pub missing: u64,
    pub unread: u64,
    pub bad: u64,
}

impl Counts {
    /// No line yet.
    pub(crate) const NONE: Counts = Counts {
        right: 0,
        wrong: 0,
        missing: 0,
        unread: 0,
        bad: 0,
    };

    /// These counts and one more line, with this verdict.
    pub(crate) fn with(self, verdict: Verdict) -> Counts
        requires { total self ≤ LIMIT }
        ensures { result ≡ counts_and_line self verdict }
    {
        let mut counts = self;
        match verdict {
            Verdict::Ignored => {}
            Verdict::Bad => counts.bad += 1,
            Verdict::Right => counts.right += 1,
            Verdict::Wrong => counts.wrong += 1,
            Verdict::Missing => counts.missing += 1,
            Verdict::Unread(_) => counts.unread += 1,
        }
        counts
    }

    /// How many of the lines are entries.
    pub(crate) fn entries(self) -> u64
        requires { total self ≤ LIMIT }
        ensures { result ≡ entry_count self }
    {
        self.right + self.wrong + self.missing + self.unread
    }
}

/// Whether a manifest that was read whole is good.
pub(crate) fn is_good(rules: CheckRules, counts: Counts) -> bool
    ensures { result ≡ is_manifest_good rules Whole counts }
{
    counts.right != 0
        && counts.wrong == 0
        && counts.unread == 0
        && (!rules.strict || counts.bad == 0)
}
