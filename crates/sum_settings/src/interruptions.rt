//! How often an interrupted call of the system is retried, by the reads of `sum_sources` and the writes of `sum_lines`.

/// This many interruptions in a row are a fault. One call of a reader or of a writer goes on after 999
/// interruptions, and gives up at the 1,000th.
pub const INTERRUPTION_LIMIT: u32 = 1000;
