//! Sinks, to which bytes are written: the trait, its implementations, the buffer over a sink, and outputs, to which
//! whole texts are written.

pub(crate) mod buffered;
pub(crate) mod output;
pub(crate) mod sink;
pub(crate) mod sink_log;
pub(crate) mod told_sink;
