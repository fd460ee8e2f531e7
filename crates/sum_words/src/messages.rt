//! The texts that need no file: help and version, and faults of words.

pub(crate) mod fault_lines;
pub(crate) mod help;
