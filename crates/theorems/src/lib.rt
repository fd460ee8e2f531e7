//! The promises of `docs/PROMISES.md`, each as a theorem of its own. The contract of a function is the sentence above
//! it, in the words of the definitions that `docs/BELIEVED.md` has; its body calls what the sentence is about.
#![tactic(auto)]

pub mod digest;
pub mod lines;
pub mod moved_on;
pub mod one_operand;
pub mod program;
pub mod reading;
pub mod runs;
pub mod steps;
pub mod stops;
