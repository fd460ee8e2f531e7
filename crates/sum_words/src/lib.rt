//! What a command line asks for: the tool, its settings and its operands.
//!
//! What the arguments alone decide belongs here, and the texts that need no file, such as help and faults of words. The
//! crate opens no file.
//!
//! ```rust
//! let mut words = Words::new(alloc);
//! words.add("--tag")?;
//! words.add("a.txt")?;
//! match read_words(Tool::Md5sum, &words) {
//!     Ok(Request::Generate(settings, operands)) => {
//!         for name in operands {
//!             put_all(out, name)?;
//!         }
//!     }
//!     Ok(_) => {}
//!     Err(fault) => put_fault(err, Tool::Md5sum, &fault)?,
//! }
//! ```
#![tactic(auto)]

mod arguments;
mod arguments_log;
mod command_line;
pub mod laws;
mod messages;
mod parsing;
mod system;
mod told_arguments;
mod tool;
mod words;

pub use arguments::Arguments;
pub use command_line::{CommandLine, read_command_line};
pub use messages::fault_lines::put_fault;
pub use messages::help::{put_help, put_version};
pub use parsing::items::Operands;
pub use parsing::options::{Flag, Spelling};
pub use parsing::request::{Request, read_words};
pub use parsing::word_fault::WordFault;
pub use sum_settings::NoRoom;
pub use system::SystemArguments;
pub use told_arguments::ToldArguments;
pub use tool::{Tool, UnknownTool};
pub use words::{Words, WordsIter};
