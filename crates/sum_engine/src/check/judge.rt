//! The verdict of a line.
ghost use Rattle.std.specs.Prelude.{◌≡◌, ◌≢◌, [], false, IfOk, MatchResult, slice_range};
ghost use Rattle.sum_engine.specs.Behavior.{World};
ghost use Rattle.sum_engine.specs.Execution.{Agrees, OpensNames, ReadsToEndIf, RefusesMemory, world_at};
ghost use Rattle.sum_engine.specs.check.Judge.{HasNameRange, asks_by, names_in_line, is_unread, judge};
ghost use Rattle.sum_engine.specs.private.Judge.{listed_entry, verdict_of_hash};

use crate::check::rules::CheckRules;
use crate::inputs::Inputs;
use digest_kinds::{Digest, Kind};
use sum_sources::{Fault, HashFault, NoRoom, OpenFault, Source, is_dash};

/// What checking finds about a manifest's line.
#[derive(Clone, Copy, Debug, PartialEq, Eq)]
pub enum Verdict {
    /// The line is empty or a comment.
    Ignored,
    /// The line is improperly formatted.
    Bad,
    /// The file has the line's digest.
    Right,
    /// The file has a different digest.
    Wrong,
    /// The file isn't there, and `ignore_missing` is set. Otherwise that is `Unread(Fault::NotFound)`.
    Missing,
    /// The file could not be opened or read.
    Unread(Fault),
}

/// A line's number (the first is 1), its verdict, and the range `start..stop` of its entry's name in the line's vector.
/// That range is empty if the line has no entry.
#[derive(Clone, Copy, Debug, PartialEq, Eq)]
pub struct LineVerdict {
    pub number: u64,
    pub verdict: Verdict,
    pub start: usize,
    pub stop: usize,
}

impl LineVerdict {
    /// Returns the name of its entry, in the line's vector as `next` has left it. It is empty if the line has no entry.
    pub fn name<'a>(self, line: &'a [u8]) -> &'a [u8]
        requires range { HasNameRange line.now self }
        ensures name { result.now ≡ slice_range line.now self.start self.stop }
    {
        &line[self.start..self.stop]
    }
}

/// An entry of a manifest: the digest of a file, with its kind, and the file's name.
#[derive(Clone, Copy)]
pub(crate) struct ListedEntry<'a> {
    pub kind: Kind,
    pub digest: &'a Digest,
    pub name: &'a [u8],
}

/// The verdict of an entry. Returns `NoRoom` if the source is out of memory; nothing was then opened.
pub(crate) fn judge<S: Source>(
    rules: CheckRules,
    listed: &ListedEntry,
    inputs: &mut Inputs<S>,
) -> Result<Verdict, NoRoom>
    ensures verdict { (w : World) → Agrees w inputs.new
        → let is = judge rules (world_at w inputs.old) (listed_entry listed.now) in
        MatchResult result (λ v. v ≡ is) (λ _. asks_by is listed.now.name.now ≢ []) }
    ensures opened { MatchResult result (λ v. OpensNames inputs.old inputs.new
        (names_in_line (record { number = 0; verdict = v; name = listed.now.name.now })))
        (λ _. RefusesMemory inputs.old inputs.new) }
    ensures reads { ReadsToEndIf (IfOk result (λ v. is_unread v ≡ false)) inputs.old inputs.new }
{
    if rules.from_stdin && is_dash(listed.name) {
        return Ok(Verdict::Bad);
    }
    let found = inputs.hash_file(listed.kind, listed.name);
    compare(&found, listed.digest, rules.ignore_missing)
}

// The verdict, according to what hashing the name gave.
fn compare(
    found: &Result<Digest, HashFault>,
    digest: &Digest,
    ignore_missing: bool,
) -> Result<Verdict, NoRoom>
    ensures { result ≡ verdict_of_hash ignore_missing digest.now found.now }
{
    match found {
        Ok(found) if found.same(digest) => Ok(Verdict::Right),
        Ok(_) => Ok(Verdict::Wrong),
        Err(HashFault::Open(OpenFault::Fault(Fault::NotFound))) if ignore_missing => {
            Ok(Verdict::Missing)
        }
        Err(HashFault::Open(OpenFault::Fault(fault)) | HashFault::Read(fault)) => {
            Ok(Verdict::Unread(*fault))
        }
        Err(HashFault::Open(OpenFault::Memory)) => Err(NoRoom),
    }
}
