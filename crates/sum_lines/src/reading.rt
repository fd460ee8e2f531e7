//! Reading a line of a manifest.

pub(crate) mod beginnings;
pub(crate) mod line_parts;
pub(crate) mod plain;
pub(crate) mod read_line;
pub(crate) mod tagged;
