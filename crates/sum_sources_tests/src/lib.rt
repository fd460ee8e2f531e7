//! Tests of `sum_sources`: what no contract says, and each call once with its answer.
#![tactic(auto)]

pub mod callers;
pub mod fronts;
pub mod goes_on;
#[cfg(test)]
mod inputs;
#[cfg(test)]
mod lines;
pub mod rest;
#[cfg(test)]
mod sources;
pub mod standard_input;
