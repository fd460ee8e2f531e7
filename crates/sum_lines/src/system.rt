//! What calls the system: each call is logged where it is made.

pub(crate) mod from_write;
