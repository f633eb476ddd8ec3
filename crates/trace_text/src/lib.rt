//! The lines of the steps of a run: where each was made, what it does, and what it changed.
#![tactic(auto)]

mod changes;
mod meanings;
mod notes;
mod rows;
mod steps;

pub use notes::push_note_line;
pub use steps::{push_last_steps, push_steps};
