//! The GNU digest tools and `anysum`, in one program, without its `main`.
//!
//! What joins the crates into runs of the tools belongs here: the run of a tool, the program around it, and the laws of
//! both. Each rule about a single operand, line or word is in a crate below.
//!
//! ```rust
//! let mut streams = Streams::new(files, out, err);
//! let status = run(alloc, Tool::Md5sum, &words, &mut streams)?;
//! ```
#![tactic(auto)]

mod command_run;
mod finish;
pub mod laws;
mod messages;
mod program_lines;
pub mod standard_input;
mod system_run;
mod tool_run;

pub use command_run::command;
pub use program_lines::{put_not_read, put_stop, put_unknown};
pub use system_run::{Finished, SystemStreams, program};
pub use tool_run::run;
