//! Hashes files, and checks files against manifests.
//!
//! What one name or one manifest means, and what is written about it, belongs here, but nothing about command lines.
//! [`Verdicts`] writes nothing: it is for a program that shows what it finds in its own way.
//!
//! ```rust
//! let mut source = ToldSource::new(rt.alloc(), 8192);
//! source.add(b"abc.txt", Answer::Content(b"abc", Ending::Whole))?;
//! let list = b"900150983cd24fb0d6963f7d28e17f72  abc.txt\n";
//! let stdin = Stdin::new(Told::new(list, Ending::Whole, 8192));
//! let mut streams = Streams::new(
//!     WithStdin::new(stdin, source),
//!     ToldSink::<99>::new(99),
//!     ToldSink::<99>::new(99),
//! );
//! let settings = CheckSettings::new(Algos::One(Algo::Md5));
//! let good = check_one(rt.alloc(), settings, "md5sum", b"-", &mut streams);
//! assert!(rt; good == Ok(true));
//! assert!(rt; streams.outputs.out.get_ref().bytes() == b"abc.txt: OK\n".as_slice());
//! ```
#![tactic(auto)]

mod check;
mod generate;
mod inputs;
pub mod laws;
mod streams;
mod tool_lines;

pub use check::check_one::check_one;
pub use check::checker::Checker;
pub use check::judge::{LineVerdict, Verdict};
pub use check::progress::Progress;
pub use check::verdicts::Verdicts;
pub use generate::generate_one;
pub use inputs::Inputs;
pub use streams::{Outputs, Streams};
pub use sum_settings::{CheckSettings, Report, Settings, Stop};
