//! Faults of opening and reading, and how an input ends.
ghost use Rattle.std.specs.Prelude.{◌≡◌, map, MatchResult};
ghost use Rattle.sum_sources.specs.{Fault.fault_text, Fault.reason, Fault.reason_table};
ghost use Rattle.sum_sources.specs.private.Fault.{fault_of_number, fault_of_kind};

use std::io::ErrorKind;
use std::{error, fmt};

/// Why an input could not be opened or read to its end.
#[derive(Clone, Copy, Debug, PartialEq, Eq)]
pub enum Fault {
    /// There is no file of that name.
    NotFound,
    /// Permission was denied: to read the file, or to search a directory of its path.
    Denied,
    /// Any other reason. Its text is *Input/output error*.
    Other,
    /// A reason of the system that has a text of its own, by its number (`errno`): 21 is *Is a directory*.
    Os(i32),
}

// The text of any other reason, and that of the system's number 5, EIO.
const OTHER: &str = "Input/output error";

/// The system's number for a descriptor that isn't open.
pub const EBADF: i32 = 9;

/// The system's number for text that isn't valid in its encoding.
pub(crate) const EILSEQ: i32 = 84;

// No such file or directory.
const ENOENT: i32 = 2;

// Permission denied.
const EACCES: i32 = 13;

impl Fault {
    /// Returns the fault as diagnostics show it.
    pub fn text(self) -> &'static str
        ensures text { result.now ≡ fault_text self }
    {
        match self {
            Fault::NotFound => "No such file or directory",
            Fault::Denied => "Permission denied",
            Fault::Other => OTHER,
            Fault::Os(number) if reason(number).is_empty() => OTHER,
            Fault::Os(number) => reason(number),
        }
    }
}

impl fmt::Display for Fault {
    ghost use Rattle.std.specs.Prelude.{Some};

    ghost output = { λ fault. Some (fault_text fault) };

    fn fmt<W: fmt::Write>(&self, f: &mut fmt::Formatter<W>) -> fmt::Result {
        f.pad(self.text())
    }
}

impl error::Error for Fault {}

// The fault for one of the system's numbers.
pub(crate) fn fault_of_number(number: i32) -> Fault
    ensures { result ≡ fault_of_number number }
{
    match number {
        ENOENT => Fault::NotFound,
        EACCES => Fault::Denied,
        _ if reason(number).is_empty() => Fault::Other,
        _ => Fault::Os(number),
    }
}

// The fault for an error that has no number.
pub(crate) fn fault_of_kind(kind: ErrorKind) -> Fault
    ensures { result ≡ fault_of_kind kind }
{
    match kind {
        ErrorKind::NotFound => Fault::NotFound,
        ErrorKind::PermissionDenied => Fault::Denied,
        _ => Fault::Other,
    }
}

// The C library's text for one of the system's numbers. It is empty if the table has none.
fn reason(number: i32) -> &'static str
    ensures { result.now ≡ reason number }
{
    let reasons = reason_table();
    match usize::try_from(number) {
        Ok(place) if place < reasons.len() => reasons[place],
        _ => "",
    }
}

// The table below.
#[tactic(auto, unfolding(crate::specs::Fault::reason_table))]
fn reason_table() -> &'static [&'static str]
    ensures { map (λ text. text.now) result.now ≡ reason_table }
{
    &REASONS
}

// The texts of the system's numbers from 0 on. The number at a line's end is that of the first text in the line.
#[rattlefmt::skip]
static REASONS: [&str; 134] = [
    "", "Operation not permitted", "", "No such process", "Interrupted system call", "",  // 0
    "No such device or address", "Argument list too long", "Exec format error", "Bad file descriptor",
    "No child processes", "Resource temporarily unavailable", "Cannot allocate memory", "", "Bad address",  // 10
    "Block device required", "Device or resource busy", "File exists", "Invalid cross-device link", "No such device",
    "Not a directory", "Is a directory", "Invalid argument", "Too many open files in system",  // 20
    "Too many open files", "Inappropriate ioctl for device", "Text file busy", "File too large",
    "No space left on device", "Illegal seek",
    "Read-only file system", "Too many links", "Broken pipe", "Numerical argument out of domain",  // 30
    "Numerical result out of range", "Resource deadlock avoided", "File name too long", "No locks available",
    "Function not implemented", "Directory not empty",
    "Too many levels of symbolic links", "", "No message of desired type", "Identifier removed",  // 40
    "Channel number out of range", "Level 2 not synchronized", "Level 3 halted", "Level 3 reset",
    "Link number out of range", "Protocol driver not attached",
    "No CSI structure available", "Level 2 halted", "Invalid exchange", "Invalid request descriptor",  // 50
    "Exchange full", "No anode", "Invalid request code", "Invalid slot", "", "Bad font file format",
    "Device not a stream", "No data available", "Timer expired", "Out of streams resources",  // 60
    "Machine is not on the network", "Package not installed", "Object is remote", "Link has been severed",
    "Advertise error", "Srmount error",
    "Communication error on send", "Protocol error", "Multihop attempted", "RFS specific error", "Bad message",  // 70
    "Value too large for defined data type", "Name not unique on network", "File descriptor in bad state",
    "Remote address changed", "Can not access a needed shared library",
    "Accessing a corrupted shared library", ".lib section in a.out corrupted",  // 80
    "Attempting to link in too many shared libraries", "Cannot exec a shared library directly",
    "Invalid or incomplete multibyte or wide character", "Interrupted system call should be restarted",
    "Streams pipe error", "Too many users", "Socket operation on non-socket", "Destination address required",
    "Message too long", "Protocol wrong type for socket", "Protocol not available", "Protocol not supported",  // 90
    "Socket type not supported", "Operation not supported", "Protocol family not supported",
    "Address family not supported by protocol", "Address already in use", "Cannot assign requested address",
    "Network is down", "Network is unreachable", "Network dropped connection on reset",  // 100
    "Software caused connection abort", "Connection reset by peer", "No buffer space available",
    "Transport endpoint is already connected", "Transport endpoint is not connected",
    "Cannot send after transport endpoint shutdown", "Too many references: cannot splice",
    "Connection timed out", "Connection refused", "Host is down", "No route to host",  // 110
    "Operation already in progress", "Operation now in progress", "Stale file handle", "Structure needs cleaning",
    "Not a XENIX named type file", "No XENIX semaphores available",
    "Is a named type file", "Remote I/O error", "Disk quota exceeded", "No medium found", "Wrong medium type",  // 120
    "Operation canceled", "Required key not available", "Key has expired", "Key has been revoked",
    "Key was rejected by service",
    "Owner died", "State not recoverable", "Operation not possible due to RF-kill",  // 130
    "Memory page has hardware error",
];

/// How an input ends after its last byte.
#[derive(Clone, Copy, Debug, PartialEq, Eq)]
pub enum Ending {
    /// All bytes were read.
    Whole,
    /// After the last byte, a read fails with this fault.
    Broken(Fault),
}

impl Ending {
    // What a read returns when no byte remains.
    pub(crate) fn read(self) -> Result<usize, Fault>
        ensures { MatchResult result (λ n. (n ≡ 0)
            × (self ≡ Ending.Whole)) (λ f. self ≡ Ending.Broken f) }
    {
        match self {
            Ending::Whole => Ok(0),
            Ending::Broken(fault) => Err(fault),
        }
    }
}
