//! Judges the answer of an outside solver to a question of a function: whether its text can be read, whether the question is true of its values, and from
//! which start the run then ends as the question asks.
#![tactic(auto)]

mod accepting;
mod choices;
mod drawn;
mod filling;
mod judged;
mod judging;
mod known;
mod readings;
mod truth;

pub use judged::{End, Judged};
pub use judging::judge;
