//! Inputs, from which bytes are read: the trait, its implementations, and the digest of an input.

pub(crate) mod hash_input;
pub(crate) mod input;
pub(crate) mod input_log;
pub(crate) mod size_limit;
pub(crate) mod stdin;
pub(crate) mod told;
