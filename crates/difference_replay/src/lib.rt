//! The judgement of a named difference of two functions by running both again: the text of a report is read, and both runs from its states have to exit as it
//! says.
#![tactic(auto)]

mod blocks;
mod machines;
mod named;
mod probes;
mod replays;
mod sides;
mod texts;

pub use replays::replay_two;
