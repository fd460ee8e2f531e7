//! Where what was opened is: it is standard input, or a file.

use crate::Given;
use crate::inputs::input_log::InputLog;

/// Standard input, with a log that has its name and its opening; or a file.
#[derive(Debug)]
pub(crate) enum StdinOrFile<I, F> {
    Stdin(Given<I>, InputLog),
    File(F),
}
