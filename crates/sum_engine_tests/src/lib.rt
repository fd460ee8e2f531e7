//! Tests of `sum_engine`: each call with its answer, memory that is refused, files that go on after an end or a fault,
//! and callers that show one clause.
#![tactic(auto)]

pub mod consequences;
pub mod counting;
#[cfg(test)]
mod generating;
#[cfg(test)]
mod going_on;
#[cfg(test)]
mod memory;
pub mod standard_input;
#[cfg(test)]
mod stepping;
#[cfg(test)]
mod streams;
