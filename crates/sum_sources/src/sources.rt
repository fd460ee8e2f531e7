//! Sources, which open files: the trait and its implementations.

pub(crate) mod hash_file;
pub(crate) mod opened;
pub(crate) mod source;
pub(crate) mod source_log;
pub(crate) mod stdin_or_file;
pub(crate) mod stored_answer;
pub(crate) mod told_source;
pub(crate) mod with_stdin;
