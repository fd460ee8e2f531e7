//! Tests of `blake2b_core` and `digest_kinds`: published digests, the compression function beside a plain one, and each
//! call with its answer. `laws` has what follows from the laws, and `consequences` what follows from contracts.
#![tactic(auto)]

#[cfg(test)]
mod blake2b;
pub mod consequences;
#[cfg(test)]
mod hashers;
#[cfg(test)]
mod kinds;
pub mod laws;
#[cfg(test)]
mod plain;
