//! Tests of `sum_words`: each call once with its answer, and the texts of faults. `proofs/WorkedExamples.antt` says
//! which request or fault some command lines are, and `consequences` what follows from contracts.
#![tactic(auto)]

pub mod consequences;
#[cfg(test)]
mod laws;
#[cfg(test)]
mod texts;
#[cfg(test)]
mod words;
