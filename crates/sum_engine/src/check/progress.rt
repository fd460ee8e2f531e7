//! The progress of a manifest's check.

/// What one step of a check did.
#[derive(Clone, Copy, Debug, PartialEq, Eq)]
pub enum Progress {
    /// A line was handled.
    Going,
    /// The manifest has ended; true if it is good.
    Ended(bool),
}
