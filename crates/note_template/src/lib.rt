//! Templates of notes, with symbols of a file in place of addresses, and lines for what is asked of most functions.
#![tactic(auto)]

mod bytes;
mod expanding;
mod fault;
mod form;
mod forms;
mod line_fault;
mod lines;
mod machine;
mod operands;
mod own_lines;
mod own_words;
mod printing;
mod spelling;

pub use expanding::expand;
pub use fault::{Refusal, TemplateFault};
pub use machine::TemplateMachine;
