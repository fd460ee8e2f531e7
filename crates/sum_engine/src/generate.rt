//! Hashing one name, and writing its line.
ghost use Rattle.std.specs.Prelude.{◌≡◌, true, Ok};
ghost use Rattle.sum_engine.specs.Execution.{Performs, ReadsToEndIf};
ghost use Rattle.sum_engine.specs.{Generate.generate_behavior, Streams.FailuresMatch, private.Generate.fault_in};

use crate::streams::Streams;
use crate::tool_lines::NameFaultLine;
use sum_lines::{DigestLine, Sink};
use sum_settings::{Settings, Stop};
use sum_sources::{Fault, HashFault, NoRoom, OpenFault, Source};

/// Hashes the file of this name. Its line goes to `out`, or a line with the fault to `err`
/// (coreutils manual, "md5sum invocation"). Returns true only if the file was read to its end.
///
/// Returns `Stop::Memory` only if the source was refused memory to open the file; nothing is then written. Returns
/// `Stop::Write` if an output fails; a prefix of the line was then written.
pub fn generate_one<S: Source, O: Sink, E: Sink>(
    settings: &Settings,
    tool: &str,
    name: &[u8],
    streams: &mut Streams<S, O, E>,
) -> Result<bool, Stop>
    // The behavior of hashing that name, in every world that agrees with what was read.
    ensures behavior { Performs (λ w. generate_behavior settings.now tool.now w name.now)
        (λ good. good)
        streams.old streams.new result }
    // Returns true only if the file was read to its end; whatever is returned, it was read no further.
    ensures reads { ReadsToEndIf (result ≡ Ok true) streams.old.inputs streams.new.inputs }
    // A write fault comes with one more failure, of one output.
    ensures failures { FailuresMatch streams.old.outputs streams.new.outputs result }
{
    match streams.inputs.hash_file(settings.kind, name) {
        Ok(digest) => {
            let line = DigestLine {
                style: settings.style,
                kind: settings.kind,
                name,
                digest: &digest,
            };
            streams.outputs.write_out(&line, true)
        }
        Err(failed) => {
            let fault = fault_of(failed)?;
            let line = NameFaultLine { tool, name, fault };
            streams.outputs.write_err(&line, false)
        }
    }
}

// The fault of opening or reading. Returns `NoRoom` if memory was refused.
fn fault_of(failed: HashFault) -> Result<Fault, NoRoom>
    ensures { result ≡ fault_in failed }
{
    match failed {
        HashFault::Open(OpenFault::Fault(fault)) | HashFault::Read(fault) => Ok(fault),
        HashFault::Open(OpenFault::Memory) => Err(NoRoom),
    }
}
