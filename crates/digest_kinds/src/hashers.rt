//! Hashers: the trait, those that count bytes, one for BLAKE2b, and one for any kind.

pub(crate) mod any_hasher;
pub(crate) mod blake2b_hasher;
pub(crate) mod counting_hasher;
pub(crate) mod hasher;
