//! The standard input that the program is started with.
ghost use Rattle.std.specs.Prelude.{◌≡◌, ◌⊎◌, false, Some};
ghost use Rattle.sum_sources.specs.{declared.fault.Ending.TheVariants.Broken};
ghost use Rattle.sum_sources.specs.inputs.Stdin.{bad_descriptor};
ghost use Rattle.sum_sources.specs.declared.inputs.input.Phase.TheVariants.{Unfinished};
ghost use Rattle.sum_sources.specs.declared.inputs.stdin.Closable.TheVariants.{Open, Closed};
ghost use Rattle.sum_sources.specs.inputs.InputLog.{no_reads};

use std::io::Read;
use std::os::fd::AsFd;
use sum_sources::{EBADF, FromRead, Stdin};

/// Standard input before its first read, closed or open: no clause says which of the two it is.
///
/// This function must notice a closed one before any file is opened: the system would give its descriptor to the next
/// file, and that file's bytes would be read as standard input.
pub fn standard_input<I: Read + AsFd + Drop>(stdin: I) -> Stdin<FromRead<I>>
    ensures stdin { (result ≡ (false, Some (Closed (Broken bad_descriptor) Unfinished)))
        ⊎ (result ≡ (false, Some (Open (record { reader = stdin; log = no_reads })))) }
{
    match stdin.as_fd().try_clone_to_owned() {
        Err(error) if error.raw_os_error() == Some(EBADF) => Stdin::closed(),
        _ => Stdin::new(FromRead::new(stdin)),
    }
}
