//! Checks the manifest of SHA-256 digests on standard input, and says in its own words which lines don't hold. Its
//! status is 0 only if the manifest is good.
#![tactic(auto)]

ghost use Rattle.digest_kinds.specs.declared.algo.{Algo.TheVariants.Sha256, Algos.TheVariants.One};
ghost use Rattle.std.specs.Prelude.{◌≡◌, true, false};
ghost use Rattle.sum_settings.specs.declared.settings.Report.TheVariants.{All};

mod bytes;

use bytes::Bytes;
use digest_kinds::{Algo, Algos};
use std::process::ExitCode;
use sum_engine::{CheckSettings, Inputs, Verdict, Verdicts};
use sum_sources::{Fault, Files};

/// Returns the settings of `sha256sum --check --strict`.
fn strict() -> CheckSettings
    ensures { result
        ≡ record { algo = One Sha256; report = All; strict = true; ignore_missing = false } }
{
    CheckSettings {
        strict: true,
        ..CheckSettings::new(Algos::One(Algo::Sha256))
    }
}

fn main(rt: HostRuntime) -> anyhow::Result<ExitCode> {
    let mut verdicts = Verdicts::new(strict(), true, Bytes::new(rt.stdin()));
    let mut inputs = Inputs::new(Files::new(rt));
    let mut line = Vec::new(rt.alloc());
    for _ in 0..u64::MAX {
        let Some(found) = verdicts.next(&mut line, &mut inputs)? else {
            break;
        };
        let why = match found.verdict {
            Verdict::Ignored | Verdict::Right | Verdict::Missing => continue,
            Verdict::Bad => "improperly formatted",
            Verdict::Wrong => "another digest",
            Verdict::Unread(Fault::NotFound) => "not there",
            Verdict::Unread(_) => "can't be read",
        };
        let name = String::from_utf8_lossy(rt.alloc(), found.name(&line))?;
        println!(rt; "line {}, {name:?}: {why}", found.number)?;
    }
    let good = verdicts.is_good();
    println!(rt; "all in all it holds: {good}")?;
    Ok(ExitCode::from(u8::from(!good)))
}
