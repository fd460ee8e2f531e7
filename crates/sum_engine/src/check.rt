//! Checking a manifest.

pub(crate) mod check_one;
pub(crate) mod checker;
pub(crate) mod counts;
pub(crate) mod judge;
pub(crate) mod progress;
pub(crate) mod report;
pub(crate) mod rules;
pub(crate) mod summary;
pub(crate) mod verdicts;
