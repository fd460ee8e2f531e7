//! Tests of `digests`: runs of the tools over known input and known files, into known outputs. `laws` has what follows
//! from its laws, and `proofs/WorkedExamples.antt` what some command lines mean.
#![tactic(auto)]

pub mod laws;
#[cfg(test)]
mod runs;
