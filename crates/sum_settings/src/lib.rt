//! What a call is asked to do, and why it stops early: what a command line is read into, and what the calls above take
//! and return. A type belongs here if crates that don't call each other take or return it; so does how often an
//! interrupted call of the system is tried again.
//!
//! ```rust
//! let settings = CheckSettings {
//!     strict: true,
//!     ..CheckSettings::new(Algos::One(Algo::Sha256))
//! };
//! ```
#![tactic(auto)]

mod interruptions;
mod settings;
mod stop;
mod style;

pub use interruptions::INTERRUPTION_LIMIT;
pub use settings::{CheckSettings, Report, Settings};
pub use stop::{NoRoom, Stop};
pub use style::{Mode, Style};
