//! How a line is written.

/// The layout of a line (coreutils manual, "md5sum invocation").
#[derive(Clone, Copy, Debug, PartialEq, Eq)]
pub enum Mode {
    /// The digits, two spaces, and the name.
    Text,
    /// The digits, a space, `*`, and the name.
    Binary,
    /// The tag, the name in parentheses, `=`, and the digits.
    Tag,
}

/// How lines are written.
#[derive(Clone, Copy, Debug, PartialEq, Eq)]
pub struct Style {
    /// The layout.
    pub mode: Mode,
    /// Whether lines end with NUL and names are left unescaped.
    pub zero: bool,
}
