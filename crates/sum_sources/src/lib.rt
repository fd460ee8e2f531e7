//! Where bytes come from: inputs and sources of files, in memory and real ones, the digest of an input, and the lines
//! of a manifest.
//!
//! What opens, reads or closes belongs here, but nothing about what a line says, and nothing that writes. Inputs and
//! sources keep logs of what their calls gave. Only proofs see them. The code that opens a file must close
//! it.
//!
//! ```rust
//! let mut files = ToldSource::new(alloc, PIECE);
//! files.add(b"notes.txt", Answer::Content(b"abc", Ending::Whole))?;
//! let digest = hash_file(&mut files, b"notes.txt", Md5Hasher::new())?;
//! assert!(digest.same(&"900150983cd24fb0d6963f7d28e17f72".parse()?));
//! ```
#![tactic(auto)]

mod fault;
mod inputs;
pub mod laws;
mod line_reader;
mod sources;
mod system;

pub use fault::{EBADF, Ending, Fault};
pub use inputs::hash_input::{hash_input, hash_input_with_buffer};
pub use inputs::input::{Input, PIECE, Phase};
pub use inputs::input_log::{InputCalls, InputLog, ReadNote};
pub use inputs::stdin::{Given, Stdin};
pub use inputs::told::Told;
pub use line_reader::{LineReader, LineStop, Next};
pub use sources::hash_file::{HashFault, hash_file, hash_file_with_buffer};
pub use sources::source::{OpenFault, Source};
pub use sources::source_log::{Note, SourceCalls, SourceLog, next_file};
pub use sources::told_source::{Answer, ToldSource};
pub use sources::with_stdin::{WithStdin, is_dash};
pub use sum_settings::NoRoom;
pub use system::files::Files;
pub use system::from_read::FromRead;
