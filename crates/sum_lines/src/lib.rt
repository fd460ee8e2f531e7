//! Lines of checksums: how they are written to a sink, how a name is escaped in them, and how they are read.
//!
//! The format of a line and the sinks that lines are written to belong here, but nothing about files or whole
//! manifests. The crate takes no memory.
//!
//! ```rust
//! let (reading, form) = read_line(Algos::Any, Form::Undecided, &mut line);
//! if let Reading::Entry { kind, digest, start, stop } = reading {
//!     let name = String::from_utf8_lossy(rt.alloc(), &line[start..stop])?;
//!     println!(rt; "{kind} {digest} of {name:?}")?;
//! }
//! ```
#![tactic(auto)]

mod escape;
pub mod laws;
mod reading;
mod sinks;
mod system;
mod writing;

pub use escape::{needs_escape, put_escaped, unescape_in};
pub use reading::read_line::{Form, Reading, is_ignored, read_line};
pub use sinks::buffered::{Buffered, CAPACITY, put_all};
pub use sinks::output::{Output, Text};
pub use sinks::sink::{Sink, SinkFault};
pub use sinks::sink_log::{Flushed, Offer, SinkCalls, SinkLog};
pub use sinks::told_sink::ToldSink;
pub use sum_settings::{Mode, Style};
pub use system::from_write::FromWrite;
pub use writing::parts::{Part, Parts, put_number, put_parts};
pub use writing::put_line::{DigestLine, mark_and_name, put_line};
