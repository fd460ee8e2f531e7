//! What an error of the system means.
ghost use Rattle.std.specs.{IoError.error_kind, IoError.raw_os_error, Prelude.◌≡◌};
ghost use Rattle.sum_sources.specs.private.Fault.{fault_of_error};

use crate::Fault;
use crate::fault::{fault_of_kind, fault_of_number};
use std::io::{self, ErrorKind};

// The fault for an error. Its number decides or, if it has none, its kind.
pub(crate) fn fault_of(error: &io::Error) -> Fault
    ensures { result ≡ fault_of_error (error_kind error.now) (raw_os_error error.now) }
{
    match error.raw_os_error() {
        Some(number) => fault_of_number(number),
        None => fault_of_kind(error.kind()),
    }
}

// Whether the runtime had no memory for a call. If the system has none, its error has a number, and is a fault of that
// file.
pub(crate) fn is_refusal(error: &io::Error) -> bool {
    error.kind() == ErrorKind::OutOfMemory && error.raw_os_error().is_none()
}
