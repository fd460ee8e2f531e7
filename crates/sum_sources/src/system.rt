//! What calls the system: each call is logged where it is made.

pub(crate) mod errors;
pub(crate) mod files;
pub(crate) mod from_read;
