//! Tests of `sum_lines`: worked examples of lines that are written and read, and what no contract says of sinks.
//! `laws` has what follows from the laws, and `callers` what
//! callers have from other clauses.
#![tactic(auto)]

pub mod callers;
#[cfg(test)]
mod calls;
pub mod laws;
#[cfg(test)]
mod reading;
#[cfg(test)]
mod sinks;
#[cfg(test)]
mod writing;
