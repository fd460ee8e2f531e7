//! Prints the SHA-256 digest of the file `abc`.
#![tactic(auto)]

ghost use Rattle.sum_sources.specs.sources.HashFile.{HashesFile};

use digest_kinds::{Algo, AnyHasher, Digest, Kind};
use sum_sources::{Files, HashFault, Source, hash_file};

/// Returns the digest, of this kind, of the file of this name; or why it has none.
fn digest_of<S: Source>(source: &mut S, name: &[u8], kind: Kind) -> Result<Digest, HashFault>
    ensures { HashesFile kind name.now (S.state source.old) (S.state source.new) result }
{
    hash_file(source, name, AnyHasher::new(kind))
}

fn main(rt: HostRuntime) -> anyhow::Result<()> {
    let digest = digest_of(&mut Files::new(rt), b"abc", Kind::of(Algo::Sha256))?;
    println!(rt; "{digest}")?;
    Ok(())
}
