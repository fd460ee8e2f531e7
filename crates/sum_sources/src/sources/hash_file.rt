//! The digest of the file of a name.
ghost use Rattle.std.specs.Prelude.{◌≡◌, [], length, IfOk};
ghost use Rattle.sum_sources.specs.sources.HashFile.{HashesFile};

use crate::{Fault, OpenFault, PIECE, Source, hash_input_with_buffer};
use digest_kinds::{Digest, Hasher};
use thiserror::Error;

/// Why the file of a name has no digest: opening it failed, or reading it did.
#[derive(Clone, Copy, Debug, PartialEq, Eq, Error)]
pub enum HashFault {
    #[error(transparent)]
    Open(OpenFault),
    #[error(transparent)]
    Read(Fault),
}

impl From<OpenFault> for HashFault {
    ghost use Rattle.sum_sources.specs.declared.sources.hash_file.HashFault.TheVariants.{Open};

    ghost from_gives = { λ cause fault. fault ≡ Open cause };

    fn from(cause: OpenFault) -> HashFault {
        HashFault::Open(cause)
    }
}

impl From<Fault> for HashFault {
    ghost use Rattle.sum_sources.specs.declared.sources.hash_file.HashFault.TheVariants.{Read};

    ghost from_gives = { λ cause fault. fault ≡ Read cause };

    fn from(cause: Fault) -> HashFault {
        HashFault::Read(cause)
    }
}

/// Opens the file of this name, reads it once, to its end or its first fault, and closes it. Returns the digest that
/// `hasher`, a new one, computes of its bytes. Returns `HashFault::Open` if the file can't be opened, and
/// `HashFault::Read` if a read fails or the file has `LIMIT` bytes or more.
pub fn hash_file<S: Source, H: Hasher + Drop>(
    source: &mut S,
    name: &[u8],
    hasher: H,
) -> Result<Digest, HashFault>
    requires { H.holds hasher [] }
    ensures hashed { HashesFile (H.kind_of hasher) name.now (S.state source.old)
        (S.state source.new) result }
{
    let mut buffer: [u8; PIECE] = [0; PIECE];
    hash_file_with_buffer(source, name, hasher, &mut buffer)
}

/// Does what `hash_file` does, but reads into the caller's buffer, so that one serves many files. The buffer's previous
/// content doesn't matter; its content afterwards is unspecified.
pub fn hash_file_with_buffer<S: Source, H: Hasher + Drop>(
    source: &mut S,
    name: &[u8],
    hasher: H,
    buffer: &mut [u8; PIECE],
) -> Result<Digest, HashFault>
    requires { H.holds hasher [] }
    ensures hashed { HashesFile (H.kind_of hasher) name.now (S.state source.old)
        (S.state source.new) result }
    ensures len { IfOk result (λ d. length d ≡ (H.kind_of hasher).len) }
{
    let mut file = source.open_file(name)?;
    let found = hash_input_with_buffer(&mut file, hasher, buffer);
    source.close_file(file);
    Ok(found?)
}
