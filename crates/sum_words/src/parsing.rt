//! From words to a request: the options, the items of the words, and what these ask for.

pub(crate) mod items;
pub(crate) mod options;
pub(crate) mod request;
pub(crate) mod word_fault;
