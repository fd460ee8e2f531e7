//! Texts that are written: in parts, and the line of a name and its digest.

pub(crate) mod parts;
pub(crate) mod put_line;
